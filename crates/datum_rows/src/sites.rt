//! The coordinates of the datum's sites among the parameters of normal equations.

ghost use Rattle.std.specs.Prelude.{◌≡◌, ◌≤◌, ◌<◌, ◌^◌, ℕ, ℤ, pos, not, All, IfOk, length, filter, slice_index_or, unsigned_abs};
ghost use Rattle.std.specs.Option.{option_map};
ghost use Rattle.std.specs.List.{find, position_or_len};
ghost use Rattle.decimal_e.specs.Fractions.{IsAtMost};
ghost use Rattle.decimal_e.specs.Scales.{decimal_interval};
ghost use Rattle.neq_stack.specs.Neqs.{IsSound, neq_view};
ghost use Rattle.datum_rows.specs.Conditions.{Motion as PlainMotion};
ghost use Rattle.datum_rows.specs.Sites as spec;
ghost use Rattle.datum_rows.specs.Views.{axis_view, position_view, IsNear, IsNearBy, coefficient_by, AreCoordinates};

use crate::motions::{Axis, Position};
use control_doc::Site;
use decimal_e::{Dec, floor_at};
use neq_stack::Neq;
use param_ids::{Names, ParamId};
use std::alloc::{AllocError, Global};

/// A coordinate of a site: its axis, and where the site is.
#[derive(Clone, Copy)]
pub struct Coordinate {
    /// Along which axis it is.
    pub axis: Axis,
    /// The position of its site.
    pub position: Position,
}

/// The type of a coordinate.
fn kind_of(axis: Axis) -> [u8; 6]
    ensures { result ≡ spec.kind_of (axis_view axis) }
{
    match axis {
        Axis::X => *b"STAX  ",
        Axis::Y => *b"STAY  ",
        Axis::Z => *b"STAZ  ",
    }
}

/// The axis of a type, if it is a coordinate's.
fn axis_of(kind: &[u8; 6]) -> Option<Axis>
    ensures { option_map axis_view result ≡ spec.axis_of kind.now }
{
    if *kind == kind_of(Axis::X) {
        Some(Axis::X)
    } else if *kind == kind_of(Axis::Y) {
        Some(Axis::Y)
    } else if *kind == kind_of(Axis::Z) {
        Some(Axis::Z)
    } else {
        None
    }
}

/// Whether a name has a site's code, point and solution.
fn is_of_site(id: &ParamId, site: &Site) -> bool
    ensures { result ≡ spec.is_of_site id.now site.now }
{
    id.code == site.code && (id.point == site.point && id.soln == site.soln)
}

/// Whether a name is that of a coordinate of a site, at any moment.
fn is_at(site: &Site, axis: Axis, id: &ParamId) -> bool
    ensures { result ≡ spec.is_at site.now (axis_view axis) id.now }
{
    is_of_site(id, site) && id.kind == kind_of(axis)
}

/// How many names are that of a coordinate.
fn count_at(names: &Names, site: &Site, axis: Axis) -> usize
    ensures { result ≡ length (filter (spec.is_at site.now (axis_view axis)) names.now) }
{
    let mut count = 0;
    for k in 0..names.len() {
        if is_at(site, axis, names.at(k)) {
            count += 1;
        }
    }
    count
}

/// Whether exactly one name is that of a coordinate.
fn has_one(names: &Names, site: &Site, axis: Axis) -> bool
    ensures { result ≡ spec.has_one names.now site.now (axis_view axis) }
{
    count_at(names, site, axis) == 1
}

/// Whether each coordinate of a site is there exactly once.
fn is_matched(names: &Names, site: &Site) -> bool
    ensures { result ≡ spec.is_matched names.now site.now }
{
    has_one(names, site, Axis::X)
        && (has_one(names, site, Axis::Y) && has_one(names, site, Axis::Z))
}

/// The first site of which a coordinate is not there exactly once.
pub fn unmatched(names: &Names, sites: &[Site]) -> Option<Site>
    ensures { result ≡ find (λ site. not (spec.is_matched names.now site)) sites.now }
{
    match sites {
        [] => None,
        [site, rest @ ..] => {
            if is_matched(names, site) {
                unmatched(names, rest)
            } else {
                Some(*site)
            }
        }
    }
}

/// The first place of a coordinate among the names, or how many names there are.
fn place_of(names: &Names, site: &Site, axis: Axis) -> usize
    ensures { result ≡ position_or_len (spec.is_at site.now (axis_view axis)) names.now }
{
    for k in 0..names.len() {
        if is_at(site, axis, names.at(k)) {
            return k;
        }
    }
    names.len()
}

/// A value in whole numbers, rounded down.
#[tactic(auto, using(crate::proofs::SiteLaws::floor_rules))]
fn floor_of(value: &Dec) -> i128
    requires { IsAtMost (10 ^ 12) value.now }
    ensures value { result ≡ (decimal_interval value.now (pos 0)).lo }
    ensures near { unsigned_abs result ≤ 10 ^ 12 }
{
    match floor_at(value, 0) {
        Some(floor) => floor,
        None => unreachable!(),
    }
}

/// The a priori value at a place, and zero past the last.
fn value_at(apriori: &[Dec], place: usize) -> Dec
    requires { All (IsAtMost (10 ^ 12)) apriori.now }
    ensures value { result ≡ slice_index_or apriori.now place spec.zero_decimal }
    ensures modest { IsAtMost (10 ^ 12) result }
{
    if place < apriori.len() {
        apriori[place]
    } else {
        Dec::zero()
    }
}

/// The a priori value of a coordinate in whole metres, rounded down.
fn metres<const N: usize>(neq: &Neq<N>, site: &Site, axis: Axis) -> i128
    requires { IsSound (neq_view neq.now) }
    ensures value { result ≡ spec.metres (neq_view neq.now) site.now (axis_view axis) }
    ensures near { unsigned_abs result ≤ 10 ^ 12 }
{
    let place = place_of(&neq.names, site, axis);
    floor_of(&value_at(&neq.apriori, place))
}

/// The position of a site.
fn position<const N: usize>(neq: &Neq<N>, site: &Site) -> Position
    requires { IsSound (neq_view neq.now) }
    ensures value { position_view result ≡ spec.position (neq_view neq.now) site.now }
    ensures near { IsNear result }
{
    Position {
        x: metres(neq, site, Axis::X),
        y: metres(neq, site, Axis::Y),
        z: metres(neq, site, Axis::Z),
    }
}

/// The first site that a name is of.
fn site_of(id: &ParamId, sites: &[Site]) -> Option<Site>
    ensures { result ≡ find (spec.is_of_site id.now) sites.now }
{
    match sites {
        [] => None,
        [site, rest @ ..] => {
            if is_of_site(id, site) {
                Some(*site)
            } else {
                site_of(id, rest)
            }
        }
    }
}

/// The coordinate of a site that a name is that of, if it is one.
fn coordinate_of<const N: usize>(neq: &Neq<N>, sites: &[Site], id: &ParamId) -> Option<Coordinate>
    requires { IsSound (neq_view neq.now) }
    ensures value { (motion : PlainMotion) → coefficient_by motion result ≡ spec.coefficient_of sites.now (neq_view neq.now) motion id.now }
    ensures near { IsNearBy result }
{
    match site_of(id, sites) {
        None => None,
        Some(site) => match axis_of(&id.kind) {
            None => None,
            Some(axis) => Some(Coordinate {
                axis,
                position: position(neq, &site),
            }),
        },
    }
}

/// Of each name its coordinate of a site, or none.
pub fn coordinates<const N: usize>(
    alloc: Global,
    neq: &Neq<N>,
    sites: &[Site],
) -> Result<Vec<Option<Coordinate>>, AllocError>
    requires { IsSound (neq_view neq.now) }
    ensures { IfOk result (λ list. AreCoordinates sites.now (neq_view neq.now) list.items) }
{
    let mut list = Vec::new(alloc);
    for k in 0..neq.names.len() {
        list.push(coordinate_of(neq, sites, neq.names.at(k)))?;
    }
    Ok(list)
}
