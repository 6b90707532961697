//! The places of names in normal equations.

ghost use Rattle.std.specs.Prelude.{◌≡◌, ◌<◌, ℕ, IfOk, IfSome, None, length, map, slice_index_or};
ghost use Rattle.param_ids.specs.Order.{IsNames};
ghost use Rattle.neq_stack.specs.ByName.{place_in};
ghost use Rattle.neq_stack.specs.Joining.{place_at, AreWithin};

use param_ids::{Names, ParamId};
use std::alloc::{AllocError, Global};

/// The place of a name, if it is there.
fn place_of(names: &Names, id: &ParamId) -> Option<usize>
    requires { IsNames names.now }
    ensures { result ≡ place_in names.now id.now }
{
    names.find(id)
}

/// Of each name the place in a part, if it is there.
pub fn places_of(
    alloc: Global,
    names: &Names,
    part: &Names,
) -> Result<Vec<Option<usize>>, AllocError>
    requires { IsNames part.now }
    ensures { IfOk result (λ places. places.items ≡ map (place_in part.now) names.now) }
{
    let mut places = Vec::new(alloc);
    for k in 0..names.len() {
        places.push(place_of(part, names.at(k)))?;
    }
    Ok(places)
}

/// The place that is said of a name.
pub fn said_at(places: &[Option<usize>], k: usize) -> Option<usize>
    requires { k < length places.now }
    ensures { result ≡ place_at places.now k }
{
    places[k]
}
