//! The product of a symmetric table of intervals with differences.
#![tactic(auto)]

ghost use Rattle.std.specs.Prelude.{◌≡◌, ◌≤◌, ◌*◌, ◌^◌, All, Ok, Err, length, IfOk, IfErr};
ghost use Rattle.whole_numbers.specs.Intervals.{size};
ghost use Rattle.param_ids.specs.Tables.{IsScale};
ghost use Rattle.difference_products.specs.Products.{IsProduct, OneProduct};
ghost use Rattle.difference_products.specs.Exact.{ProductHolds};
ghost use Rattle.difference_products.specs.Answers.{factors_of, IfRange};

mod rows;
mod scaled;
mod tables;

use interval_word::Iv;
use rows::row_products;
use scaled::{are_zero, scaled_differences};
use std::alloc::Global;
use sym_blocks::SymBlock;
use tables::{working_table, zeros};
use thiserror::Error;

/// Why there is no product.
#[derive(Clone, Copy, Debug, PartialEq, Eq, Error)]
pub enum ProductError {
    /// An interval passes its bound: one of the working table at this row and column, or else the sum of the differences up to a row
    /// or the product of a row, which have row and column equal.
    #[error("row {row}, column {col} passes its bound")]
    Range { row: usize, col: usize },
    /// Memory is wanting.
    #[error("out of memory")]
    Memory,
}

/// The product of the table with the differences. An interval of the table stands for an element times `10^(18 - t_i - t_j)`, one of
/// the differences for a number times `10^20`, and one of the product for row i of the exact product times `10^(18 - t_i)`, where t
/// are the scale exponents. One pass over the table; where all differences are zero the product is, and nothing is tested.
///
/// # Errors
///
/// Range, at the first interval that passes its bound: of the working table row by row up to the diagonal (2^61), then the sums of the
/// sizes of the scaled differences (2^64), then the products (10^34); or want of memory.
pub fn product<const N: usize>(
    alloc: Global,
    table: &SymBlock<N>,
    differences: &[Iv],
    scales: &[i32],
) -> Result<Vec<Iv>, ProductError>
    requires differences { length differences.now ≡ table.now.size }
    requires exponents { length scales.now ≡ table.now.size }
    requires scaled { All IsScale scales.now }
    ensures product { IfOk result (λ products. IsProduct (factors_of table.now differences.now scales.now) (Ok products.items)) }
    ensures range { IfErr result (IfRange (λ place. IsProduct (factors_of table.now differences.now scales.now) (Err place))) }
{
    if are_zero(differences) {
        return match zeros(alloc, differences.len()) {
            Ok(products) => Ok(products),
            Err(_) => Err(ProductError::Memory),
        };
    }
    let w = working_table(alloc, table)?;
    let zs = scaled_differences(alloc, differences, scales, &w.e)?;
    row_products(alloc, &w, &zs)
}

/// There is one product, or one first place past its bound, and the product holds the exact one.
pub fn products_hold()
    ensures one { OneProduct }
    ensures holds { ProductHolds }
{}

#[cfg(test)]
mod tests {
    use super::*;
    use std::test::Fail;

    const CORNER: i128 = 4_000_000_000_000_000_000;

    const LOW: i128 = 1_000_000_000_000_000;

    // Elements 2 * 10^9 at (1, 1), corner / 10^18 at (0, 0) and low / 10^12 beside the diagonal; scale exponents 0 and 6.
    fn answer<const N: usize>(
        alloc: Global,
        corner: i128,
        low: i128,
        differences: &[Iv],
    ) -> Result<Vec<Iv>, ProductError>
        requires { length differences.now ≡ 2 }
    {
        let mut table = match SymBlock::<N>::zero(alloc, 2) {
            Ok(zero) => zero,
            Err(_) => return Err(ProductError::Memory),
        };
        table.set(0, 0, Iv::point(corner));
        table.set(1, 0, Iv::point(low));
        table.set(1, 1, Iv::point(2_000_000_000_000_000));
        product(alloc, &table, differences, &[0, 6])
    }

    // 4 * 3 - 1000 * 5 * 10^-6 = 11.995 and 1000 * 3 - 2 * 10^9 * 5 * 10^-6 = -7000, the 3 known to 10^-20, which rounding widens.
    fn products<const N: usize>(alloc: Global) -> Result<bool, ProductError> {
        let (Some(first), Some(one), Some(other)) = (
            Iv::new(300_000_000_000_000_000_000, 300_000_000_000_000_000_001),
            Iv::new(11_995_000_000_000_000_000, 11_995_000_000_000_400_000),
            Iv::new(-7_000_000_000_000_000, -6_999_999_999_999_900),
        ) else {
            return Ok(false);
        };
        let differences = [first, Iv::point(-500_000_000_000_000)];
        let products = answer::<N>(alloc, CORNER, LOW, &differences)?;
        Ok(products.as_slice() == [one, other].as_slice())
    }

    // Nothing is tested where the differences are zero.
    fn zeros_of<const N: usize>(alloc: Global) -> Result<bool, ProductError> {
        let zeros = [Iv::point(0), Iv::point(0)];
        let products = answer::<N>(alloc, CORNER, CORNER, &zeros)?;
        Ok(products.as_slice() == zeros.as_slice())
    }

    // The working interval 4 * 10^18; the sizes 10^19 twice; the product 16 * 10^15 * 7 * 10^18 / 10.
    fn refusals<const N: usize>(alloc: Global) -> bool {
        [
            (CORNER, CORNER, 1, 1, 1, 0),
            (
                CORNER,
                LOW,
                100_000_000_000_000_000_000_000_000,
                10_000_000_000_000_000_000_000,
                1,
                1,
            ),
            (
                160_000_000_000_000_000_000_000_000_000_000_000_000,
                LOW,
                7_000_000_000_000_000,
                0,
                0,
                0,
            ),
        ]
        .iter()
        .all(|(corner, low, first, second, row, col)| {
            let differences = [Iv::point(*first), Iv::point(*second)];
            answer::<N>(alloc, *corner, *low, &differences).err()
                == Some(ProductError::Range {
                    row: *row,
                    col: *col,
                })
        })
    }

    fn each_answer<const N: usize>(alloc: Global) -> bool {
        products::<N>(alloc) == Ok(true) && zeros_of::<N>(alloc) == Ok(true) && refusals::<N>(alloc)
    }

    fn crosses_threads<T: Send + Sync>() {}

    #[test]
    fn tables_of_each_tile(rt: HostRuntime) -> Result<(), Fail> {
        crosses_threads::<ProductError>();
        assert!(rt; each_answer::<1>(rt.alloc()));
        assert!(rt; each_answer::<3>(rt.alloc()));
        assert!(rt; each_answer::<16>(rt.alloc()));
        Ok(())
    }
}
