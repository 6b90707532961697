//! What is given of each parameter.

ghost use Rattle.std.specs.Prelude.{◌≡◌, ◌<◌, ℕ, IfOk, IfSome, IsSome, Some, length, slice_get};
ghost use Rattle.neq_stack.specs.Joining.{AreWithin, place_at, first_value};

use crate::places::said_at;
use std::alloc::{AllocError, Global};

/// What stands at a place of the first list, or else at a place of the second.
fn first_of<T: Copy>(one: &[T], other: &[T], here: Option<usize>, there: Option<usize>) -> T
    requires here { IfSome here (λ i. i < length one.now) }
    requires there { IfSome there (λ i. i < length other.now) }
    requires some { IsSome (first_value one.now other.now here there) }
    ensures { Some result ≡ first_value one.now other.now here there }
{
    match here {
        Some(i) => one[i],
        None => match there {
            Some(j) => other[j],
            None => unreachable!(),
        },
    }
}

/// Of each name what stands at its place in the first list, or else in the second.
pub fn values_of_both<T: Copy>(
    alloc: Global,
    one: &[T],
    ones: &[Option<usize>],
    other: &[T],
    others: &[Option<usize>],
) -> Result<Vec<T>, AllocError>
    requires lengths { length others.now ≡ length ones.now }
    requires one { AreWithin (length one.now) ones.now }
    requires other { AreWithin (length other.now) others.now }
    requires some { (k : ℕ) → k < length ones.now → IsSome (first_value one.now other.now (place_at ones.now k) (place_at others.now k)) }
    ensures len { IfOk result (λ values. length values.items ≡ length ones.now) }
    ensures each { IfOk result (λ values. (k : ℕ) → k < length ones.now
        → slice_get values.items k ≡ first_value one.now other.now (place_at ones.now k) (place_at others.now k)) }
{
    let mut values = Vec::new(alloc);
    for k in 0..ones.len() {
        values.push(first_of(one, other, said_at(ones, k), said_at(others, k)))?;
    }
    Ok(values)
}
