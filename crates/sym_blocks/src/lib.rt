//! Symmetric tables of intervals and lower triangles of whole numbers, of at most 1,000 rows. A contract sees
//! a table's size and its lower intervals, read at a pair of indices. The parameter `N` is the edge of the
//! tiles that a layout may use; no clause speaks of it, so tables of each `N` hold equal intervals.
#![tactic(auto)]

mod places;
mod symmetric;
mod triangle;

pub use symmetric::SymBlock;
pub use triangle::Tri;

#[cfg(test)]
mod tests {
    use super::*;
    use interval_word::Iv;
    use std::alloc::{AllocError, Global};
    use std::test::Fail;

    fn read_back<const N: usize>(alloc: Global) -> Result<bool, AllocError> {
        let mut table = SymBlock::<N>::zero(alloc, 3)?;
        table.set(0, 2, Iv::point(5));
        let copy = table.clone_in()?;
        let mut triangle = Tri::<N>::zero(alloc, 3)?;
        triangle.set(2, 1, 7);
        Ok(
            copy.size() == 3
                && copy.get(2, 0) == Iv::point(5)
                && copy.get(2, 1) == Iv::point(0)
                && triangle.size() == 3
                && triangle.get(2, 1) == 7
                && triangle.get(2, 0) == 0,
        )
    }

    fn doubled<const N: usize>(alloc: Global) -> Result<bool, AllocError> {
        let mut sum = SymBlock::<N>::zero(alloc, 2)?;
        let zero = SymBlock::<N>::zero(alloc, 2)?;
        sum.add_assign(&zero);
        Ok(sum.get(1, 0) == Iv::point(0))
    }

    fn crosses_threads<T: Send + Sync>() {}

    #[test]
    fn tables_of_each_tile(rt: HostRuntime) -> Result<(), Fail> {
        crosses_threads::<SymBlock<16>>();
        crosses_threads::<Tri<16>>();
        let alloc = rt.alloc();
        assert!(rt; read_back::<1>(alloc)?);
        assert!(rt; read_back::<3>(alloc)?);
        assert!(rt; read_back::<16>(alloc)?);
        assert!(rt; doubled::<3>(alloc)?);
        Ok(())
    }
}
