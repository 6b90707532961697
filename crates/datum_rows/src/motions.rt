//! The motions that a datum keeps a network from, and their coefficients.

ghost use Rattle.std.specs.Prelude.{◌≡◌, ◌≤◌, ◌≤ℤ◌, ◌^◌, ◌++◌, ℕ, pos, IfOk, OnOk, Some, map, unsigned_abs};
ghost use Rattle.control_doc.specs.Views.{datum_view};
ghost use Rattle.datum_rows.specs.Conditions.{along, coefficients as coefficients_of, conditions as conditions_of, given, reach as reach_of};
ghost use Rattle.datum_rows.specs.Views.{axis_view, motion_view, position_view, condition_view, IsNear};

use control_doc::Datum;
use decimal_e::Dec;
use std::alloc::{AllocError, Global};

/// An axis of coordinates.
#[derive(Clone, Copy, Debug, PartialEq, Eq)]
pub enum Axis {
    /// The first.
    X,
    /// The second.
    Y,
    /// The third.
    Z,
}

/// What a condition keeps a network from.
#[derive(Clone, Copy, Debug, PartialEq, Eq)]
pub enum Motion {
    /// A move along the first axis.
    TranslationX,
    /// A move along the second.
    TranslationY,
    /// A move along the third.
    TranslationZ,
    /// A turn about the first axis.
    RotationX,
    /// A turn about the second.
    RotationY,
    /// A turn about the third.
    RotationZ,
    /// A change of scale.
    Dilation,
}

/// Three numbers, one for each axis: a site's position in whole metres, or the coefficients of a motion there.
#[derive(Clone, Copy, Debug, PartialEq, Eq)]
pub struct Position {
    /// Along the first axis.
    pub x: i128,
    /// Along the second.
    pub y: i128,
    /// Along the third.
    pub z: i128,
}

/// A motion and the standard deviation of its row.
#[derive(Clone, Copy)]
pub struct Condition {
    /// What it keeps a network from.
    pub motion: Motion,
    /// How closely, in metres.
    pub sigma: Dec,
}

/// Three numbers.
fn triple(x: i128, y: i128, z: i128) -> Position
    requires x { unsigned_abs x ≤ 10 ^ 12 }
    requires y { unsigned_abs y ≤ 10 ^ 12 }
    requires z { unsigned_abs z ≤ 10 ^ 12 }
    ensures view { position_view result ≡ record { x = x; y = y; z = z } }
    ensures near { IsNear result }
{
    Position { x, y, z }
}

/// The coefficients of a motion at a position.
fn coefficients(motion: Motion, at: &Position) -> Position
    requires { IsNear at.now }
    ensures value { position_view result ≡ coefficients_of (motion_view motion) (position_view at.now) }
    ensures near { IsNear result }
{
    match motion {
        Motion::TranslationX => triple(1, 0, 0),
        Motion::TranslationY => triple(0, 1, 0),
        Motion::TranslationZ => triple(0, 0, 1),
        Motion::RotationX => triple(0, -at.z, at.y),
        Motion::RotationY => triple(at.z, 0, -at.x),
        Motion::RotationZ => triple(-at.y, at.x, 0),
        Motion::Dilation => triple(at.x, at.y, at.z),
    }
}

/// The coefficient of a motion at a coordinate: that of the axis, at a position.
pub fn coefficient(motion: Motion, axis: Axis, at: &Position) -> i128
    requires { IsNear at.now }
    ensures value { result ≡ along (axis_view axis) (coefficients_of (motion_view motion) (position_view at.now)) }
    ensures near { unsigned_abs result ≤ 10 ^ 12 }
{
    let all = coefficients(motion, at);
    match axis {
        Axis::X => all.x,
        Axis::Y => all.y,
        Axis::Z => all.z,
    }
}

/// The power of ten that the products of two coefficients of a motion are over.
pub fn reach(motion: Motion) -> i32
    ensures value { result ≡ pos (reach_of (motion_view motion)) }
    ensures low { pos 0 ≤ℤ result }
    ensures high { result ≤ℤ pos 14 }
{
    match motion {
        Motion::TranslationX | Motion::TranslationY | Motion::TranslationZ => 0,
        Motion::RotationX | Motion::RotationY | Motion::RotationZ | Motion::Dilation => 14,
    }
}

/// Appends these motions with a standard deviation.
fn push_each(list: &mut Vec<Condition>, sigma: &Dec, motions: &[Motion]) -> Result<(), AllocError>
    ensures { OnOk result (map condition_view list.new.items ≡ map condition_view list.old.items ++ given (Some sigma.now) (map motion_view motions.now)) }
{
    for motion in motions {
        list.push(Condition {
            motion: *motion,
            sigma: *sigma,
        })?;
    }
    Ok(())
}

/// Appends these motions with a standard deviation, or nothing where none is given.
fn push_given(
    list: &mut Vec<Condition>,
    sigma: &Option<Dec>,
    motions: &[Motion],
) -> Result<(), AllocError>
    ensures { OnOk result (map condition_view list.new.items ≡ map condition_view list.old.items ++ given sigma.now (map motion_view motions.now)) }
{
    match sigma {
        None => Ok(()),
        Some(sigma) => push_each(list, sigma, motions),
    }
}

/// The conditions of a datum: those of translation, of rotation and of scale.
pub fn conditions(alloc: Global, datum: &Datum) -> Result<Vec<Condition>, AllocError>
    ensures { IfOk result (λ list. map condition_view list.items ≡ conditions_of (datum_view datum.now)) }
{
    let mut list = Vec::new(alloc);
    let moves = [
        Motion::TranslationX,
        Motion::TranslationY,
        Motion::TranslationZ,
    ];
    push_given(&mut list, &datum.translation, &moves)?;
    let turns = [Motion::RotationX, Motion::RotationY, Motion::RotationZ];
    push_given(&mut list, &datum.rotation, &turns)?;
    push_given(&mut list, &datum.scale, &[Motion::Dilation])?;
    Ok(list)
}
