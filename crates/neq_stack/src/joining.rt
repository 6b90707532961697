//! Two normal equations put together.

ghost use Rattle.std.specs.Prelude.{◌≡◌, ◌≤◌, ◌<◌, ◌+◌, ◌^◌, ◌⊎◌, ◌∷◌, ℕ, List, [], IfErr, IfOk, length, map, slice_index_or};
ghost use Rattle.whole_numbers.specs.Intervals.{interval_add, size};
ghost use Rattle.sym_blocks.specs.Tables.{before, entry_at, zero_interval};
ghost use Rattle.param_ids.specs.Order.{IsNames};
ghost use Rattle.param_ids.specs.Plain.{PlainId};
ghost use Rattle.param_ids.specs.Union.{IsUnion};
ghost use Rattle.neq_stack.specs.Neqs.{PlainNeq, IsSound, neq_view};
ghost use Rattle.neq_stack.specs.ByName.{Agree, AreAtMost, place_in};
ghost use Rattle.neq_stack.specs.Stacks.{IsStackOf};
ghost use Rattle.neq_stack.specs.Joining.{AreWithin, AreFirst, AreLaid, entry_by, right_by, HaveMany, IsJoined};
ghost use Rattle.neq_stack.specs.declared.stacking.StackError.TheVariants.{TooMany, Memory};

use crate::Neq;
use crate::adding::{add_table, right_at, sum};
use crate::places::{places_of, said_at};
use crate::stacking::StackError;
use crate::values::values_of_both;
use interval_word::Iv;
use param_ids::{Names, NamesError};
use std::alloc::{AllocError, Global};
use sym_blocks::SymBlock;

/// The intervals of two tables together, by the places of names in them.
fn table_of_both<const N: usize>(
    alloc: Global,
    one: &SymBlock<N>,
    ones: &[Option<usize>],
    other: &SymBlock<N>,
    others: &[Option<usize>],
) -> Result<SymBlock<N>, AllocError>
    requires few { length ones.now ≤ 1000 }
    requires lengths { length others.now ≡ length ones.now }
    requires one { AreWithin one.now.size ones.now }
    requires other { AreWithin other.now.size others.now }
    requires fit { (most : ℕ) × (more : ℕ)
        × ((i j : ℕ) → i < length ones.now → j < length ones.now → size (entry_by one.now ones.now i j) ≤ most)
        × ((i j : ℕ) → i < length ones.now → j < length ones.now → size (entry_by other.now others.now i j) ≤ more)
        × (most + more < 10 ^ 38) }
    ensures size { IfOk result (λ table. table.size ≡ length ones.now) }
    ensures whole { IfOk result (λ table. length table.entries ≡ before table.size) }
    ensures sums { IfOk result (λ table. (i j : ℕ) → i < length ones.now → j ≤ i
        → entry_at table i j ≡ interval_add (entry_by one.now ones.now i j) (entry_by other.now others.now i j)) }
{
    let mut table = SymBlock::<N>::zero(alloc, ones.len())?;
    add_table(&mut table, one, ones);
    add_table(&mut table, other, others);
    Ok(table)
}

/// The intervals of two right sides together, by the places of names in them.
fn rights_of_both(
    alloc: Global,
    one: &[Iv],
    ones: &[Option<usize>],
    other: &[Iv],
    others: &[Option<usize>],
) -> Result<Vec<Iv>, AllocError>
    requires lengths { length others.now ≡ length ones.now }
    requires one { AreWithin (length one.now) ones.now }
    requires other { AreWithin (length other.now) others.now }
    requires fit { (most : ℕ) × (more : ℕ)
        × ((i : ℕ) → i < length ones.now → size (right_by one.now ones.now i) ≤ most)
        × ((i : ℕ) → i < length ones.now → size (right_by other.now others.now i) ≤ more)
        × (most + more < 10 ^ 38) }
    ensures len { IfOk result (λ right. length right.items ≡ length ones.now) }
    ensures sums { IfOk result (λ right. (i : ℕ) → i < length ones.now
        → slice_index_or right.items i zero_interval ≡ interval_add (right_by one.now ones.now i) (right_by other.now others.now i)) }
{
    let mut right = Vec::new(alloc);
    for k in 0..ones.len() {
        let first = right_at(one, said_at(ones, k));
        let second = right_at(other, said_at(others, k));
        right.push(sum(&first, &second))?;
    }
    Ok(right)
}

/// The names of both lists.
fn names_of_both(one: &Names, other: &Names) -> Result<Names, StackError>
    ensures union { IfOk result (λ names. IsUnion one.now other.now names) }
    ensures few { IfOk result (λ names. length names ≤ 1000) }
    ensures refused { IfErr result (λ cause. (cause ≡ Memory)
        ⊎ ((count : ℕ) × (cause ≡ TooMany count) × ((ids : List PlainId) × IsUnion one.now other.now ids × (1000 < length ids) × (count ≡ length ids)))) }
{
    match one.merge(other) {
        Ok(names) => Ok(names),
        Err(NamesError::TooMany { count }) => Err(StackError::TooMany { count }),
        Err(NamesError::Repeated { .. }) => unreachable!(),
        Err(NamesError::Memory) => Err(StackError::Memory),
    }
}

/// The names of two parts, and of each its place in either part.
#[derive(Drop)]
struct Layout {
    names: Names,
    ones: Vec<Option<usize>>,
    others: Vec<Option<usize>>,
}

/// The places of the names of two parts.
fn laid_out(alloc: Global, names: Names, one: &Names, other: &Names) -> Result<Layout, AllocError>
    requires one { IsNames one.now }
    requires other { IsNames other.now }
    ensures names { IfOk result (λ layout. layout.names ≡ names) }
    ensures ones { IfOk result (λ layout. layout.ones.items ≡ map (place_in one.now) names) }
    ensures others { IfOk result (λ layout. layout.others.items ≡ map (place_in other.now) names) }
{
    let ones = places_of(alloc, &names, one)?;
    let others = places_of(alloc, &names, other)?;
    Ok(Layout {
        names,
        ones,
        others,
    })
}

/// The intervals of two matrices together.
fn table_over<const N: usize>(
    alloc: Global,
    layout: &Layout,
    one: &Neq<N>,
    other: &Neq<N>,
) -> Result<SymBlock<N>, AllocError>
    requires laid { AreLaid (neq_view one.now) (neq_view other.now) layout.now.names layout.now.ones.items layout.now.others.items }
    requires one { one.now.table.size ≡ length one.now.names }
    requires other { other.now.table.size ≡ length other.now.names }
    requires fit { (most : ℕ) × (more : ℕ) × AreAtMost most (neq_view one.now) × AreAtMost more (neq_view other.now) × (most + more < 10 ^ 38) }
    ensures size { IfOk result (λ table. table.size ≡ length layout.now.names) }
    ensures whole { IfOk result (λ table. length table.entries ≡ before table.size) }
    ensures sums { IfOk result (λ table. (i j : ℕ) → i < length layout.now.names → j ≤ i
        → entry_at table i j ≡ interval_add (entry_by one.now.table layout.now.ones.items i j) (entry_by other.now.table layout.now.others.items i j)) }
{
    table_of_both(
        alloc,
        &one.table,
        &layout.ones,
        &other.table,
        &layout.others,
    )
}

/// The intervals of two right sides together.
fn right_over<const N: usize>(
    alloc: Global,
    layout: &Layout,
    one: &Neq<N>,
    other: &Neq<N>,
) -> Result<Vec<Iv>, AllocError>
    requires laid { AreLaid (neq_view one.now) (neq_view other.now) layout.now.names layout.now.ones.items layout.now.others.items }
    requires one { length one.now.right.items ≡ length one.now.names }
    requires other { length other.now.right.items ≡ length other.now.names }
    requires fit { (most : ℕ) × (more : ℕ) × AreAtMost most (neq_view one.now) × AreAtMost more (neq_view other.now) × (most + more < 10 ^ 38) }
    ensures len { IfOk result (λ right. length right.items ≡ length layout.now.names) }
    ensures sums { IfOk result (λ right. (i : ℕ) → i < length layout.now.names
        → slice_index_or right.items i zero_interval ≡ interval_add (right_by one.now.right.items layout.now.ones.items i) (right_by other.now.right.items layout.now.others.items i)) }
{
    rights_of_both(
        alloc,
        &one.right,
        &layout.ones,
        &other.right,
        &layout.others,
    )
}

/// What the first of two parts has of each name.
fn values_over<T: Copy>(
    alloc: Global,
    layout: &Layout,
    one: &[T],
    other: &[T],
) -> Result<Vec<T>, AllocError>
    requires { (first : PlainNeq) × (second : PlainNeq) × AreLaid first second layout.now.names layout.now.ones.items layout.now.others.items
        × (length one.now ≡ length first.names) × (length other.now ≡ length second.names) }
    ensures len { IfOk result (λ values. length values.items ≡ length layout.now.names) }
    ensures each { IfOk result (λ values. AreFirst one.now layout.now.ones.items other.now layout.now.others.items values.items) }
{
    values_of_both(alloc, one, &layout.ones, other, &layout.others)
}

/// Two normal equations over the names of both.
fn over_names<const N: usize>(
    alloc: Global,
    layout: Layout,
    one: &Neq<N>,
    other: &Neq<N>,
) -> Result<Neq<N>, AllocError>
    requires laid { AreLaid (neq_view one.now) (neq_view other.now) layout.names layout.ones.items layout.others.items }
    requires one { IsSound (neq_view one.now) }
    requires other { IsSound (neq_view other.now) }
    requires fit { (most : ℕ) × (more : ℕ) × AreAtMost most (neq_view one.now) × AreAtMost more (neq_view other.now) × (most + more < 10 ^ 38) }
    ensures { IfOk result (λ neq. IsJoined (neq_view one.now) (neq_view other.now) (neq_view neq)) }
{
    let table = table_over(alloc, &layout, one, other)?;
    let right = right_over(alloc, &layout, one, other)?;
    let apriori = values_over(alloc, &layout, &one.apriori, &other.apriori)?;
    let units = values_over(alloc, &layout, &one.units, &other.units)?;
    let scales = values_over(alloc, &layout, &one.scales, &other.scales)?;
    Ok(Neq {
        names: layout.names,
        table,
        right,
        apriori,
        units,
        scales,
    })
}

/// Two normal equations over these names, which are those of both.
fn over_union<const N: usize>(
    alloc: Global,
    names: Names,
    one: &Neq<N>,
    other: &Neq<N>,
) -> Result<Neq<N>, AllocError>
    requires union { IsUnion one.now.names other.now.names names }
    requires few { length names ≤ 1000 }
    requires one { IsSound (neq_view one.now) }
    requires other { IsSound (neq_view other.now) }
    requires fit { (most : ℕ) × (more : ℕ) × AreAtMost most (neq_view one.now) × AreAtMost more (neq_view other.now) × (most + more < 10 ^ 38) }
    ensures { IfOk result (λ neq. IsJoined (neq_view one.now) (neq_view other.now) (neq_view neq)) }
{
    let layout = laid_out(alloc, names, &one.names, &other.names)?;
    over_names(alloc, layout, one, other)
}

/// The stack of two normal equations.
pub fn joined<const N: usize>(
    alloc: Global,
    one: &Neq<N>,
    other: &Neq<N>,
) -> Result<Neq<N>, StackError>
    requires one { IsSound (neq_view one.now) }
    requires other { IsSound (neq_view other.now) }
    requires agree { Agree (neq_view one.now) (neq_view other.now) }
    requires fit { (most : ℕ) × (more : ℕ) × AreAtMost most (neq_view one.now) × AreAtMost more (neq_view other.now) × (most + more < 10 ^ 38) }
    ensures stacked { IfOk result (λ neq. IsStackOf (neq_view one.now ∷ neq_view other.now ∷ []) (neq_view neq)) }
    ensures refused { IfErr result (λ cause. (cause ≡ Memory)
        ⊎ ((count : ℕ) × (cause ≡ TooMany count) × HaveMany (neq_view one.now ∷ neq_view other.now ∷ []) count)) }
{
    let names = match names_of_both(&one.names, &other.names) {
        Ok(names) => names,
        Err(cause) => return Err(cause),
    };
    match over_union(alloc, names, one, other) {
        Ok(neq) => Ok(neq),
        Err(_) => Err(StackError::Memory),
    }
}
