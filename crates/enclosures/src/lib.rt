//! What an enclosure is made of: the pilot, which is an approximate inverse of a table, a start vector, and the radii of a
//! certificate around it. The types keep their lengths and bounds; what the numbers mean is said where they are made.
#![tactic(auto)]

ghost use Rattle.std.specs.Prelude.{◌≡◌, ◌^◌};
ghost use Rattle.std.specs.Vec.{vec_len};
ghost use Rattle.whole_numbers.specs.Lists.{at, NonePast};
ghost use Rattle.enclosures.specs.Vectors.{IsSmall};

mod pilots;
#[cfg(test)]
mod tests;

pub use pilots::Pilot;

/// The numbers of a certificate, in units of the working table.
#[derive(Drop)]
pub struct Radius {
    /// The greatest defect of a row, in parts of 2^30.
    pub b: u64,
    /// The greatest error of a row.
    pub m: u128,
    /// How far a solution may be from the vector, row by row: at most 2^97.
    pub w: Vec<u128>,
    pub ghost bounded: { NonePast (2 ^ 97) w.items },
}

/// A pilot, its start vector and their certificate.
#[derive(Drop)]
pub struct Enclosed {
    /// The pilot.
    pub pilot: Pilot,
    /// The start vector, in units of the working table, with one number for each row of the pilot.
    pub y: Vec<i128>,
    /// The certificate at the start vector, with one radius for each row of the pilot.
    pub radius: Radius,
    pub ghost numbers: { vec_len y ≡ pilot.size },
    pub ghost small: { IsSmall pilot.size (at y.items) },
    pub ghost radii: { vec_len radius.w ≡ pilot.size },
}
