//! Working tables: a symmetric table and a right side scaled by powers of ten, so that each diagonal interval has a
//! high end between 2^60 / 100 and 2^60.
#![tactic(auto)]

use thiserror::Error;

mod making;
mod powers;
mod scaling;
mod tables;

pub use making::working;
pub use powers::exponent;
pub use tables::Working;

/// Why a table has no working table.
#[derive(Clone, Copy, Debug, PartialEq, Eq, Error)]
pub enum EquilError {
    /// The interval at this row and column passes its bound. An interval of the right side has them equal.
    #[error("row {row}, column {col} passes its bound")]
    Range { row: usize, col: usize },
    /// Memory is wanting.
    #[error("out of memory")]
    Memory,
}

#[cfg(test)]
mod tests {
    use super::*;
    use interval_word::Iv;
    use std::alloc::Global;
    use std::test::Fail;
    use sym_blocks::SymBlock;

    #[test]
    fn exponents_at_powers_of_100(rt: HostRuntime) -> Result<(), Fail> {
        for (hi, e) in [
            (-5, 0),
            (0, 0),
            (1, -9),
            (11_529_215_046_068_469, -1),
            (11_529_215_046_068_470, 0),
            (1_152_921_504_606_846_976, 0),
            (1_152_921_504_606_846_977, 1),
            (i128::MAX, 11),
        ] {
            assert_eq!(rt; exponent(hi), e, "at {hi}");
        }
        Ok(())
    }

    // The exponents of (4 * 10^21, 1) are 2 and -9.
    fn scaled<const N: usize>(alloc: Global, low: i128, right: i128) -> Result<bool, EquilError> {
        let mut table = match SymBlock::<N>::zero(alloc, 2) {
            Ok(zero) => zero,
            Err(_) => return Err(EquilError::Memory),
        };
        table.set(0, 0, Iv::point(4_000_000_000_000_000_000_000));
        table.set(1, 1, Iv::point(1));
        table.set(1, 0, Iv::point(low));
        let rights = [Iv::point(5), Iv::point(right)];
        let w = working(alloc, &table, &rights)?;
        Ok(
            w.e.as_slice() == [2, -9].as_slice()
                && w.a.get(0, 1) == Iv::point(-30_000_000)
                && w.d.as_slice()
                    == [
                        Iv::point(50_000_000_000),
                        Iv::point(7_000_000_000_000_000_000_000),
                    ]
                    .as_slice(),
        )
    }

    fn each_answer<const N: usize>(alloc: Global) -> bool {
        scaled::<N>(alloc, -3, 7) == Ok(true)
            && scaled::<N>(alloc, 1_000_000_000_000, 7) == Err(EquilError::Range { row: 1, col: 0 })
            && scaled::<N>(alloc, -3, 10_000_000_000_000_001)
                == Err(EquilError::Range { row: 1, col: 1 })
    }

    fn crosses_threads<T: Send + Sync>() {}

    #[test]
    fn tables_of_each_tile(rt: HostRuntime) -> Result<(), Fail> {
        crosses_threads::<Working<16>>();
        crosses_threads::<EquilError>();
        assert!(rt; each_answer::<1>(rt.alloc()));
        assert!(rt; each_answer::<3>(rt.alloc()));
        assert!(rt; each_answer::<16>(rt.alloc()));
        Ok(())
    }
}
