//! What the numbers of the rows are made from.

ghost use Rattle.std.specs.Prelude.{◌≡◌, ◌≤◌, ◌<◌, ◌^◌, pos, negsuc, ◌≤ℤ◌, unsigned_abs};
ghost use Rattle.decimal_e.specs.Fractions.{IsAtMost};
ghost use Rattle.enclosures.specs.Pilots.{pilot_entry};
ghost use Rattle.bounds_report.specs.Rows.{AreRows, row_count, power_at, apriori_at, vector_at, radius_at};

use decimal_e::Dec;
use enclosures::Pilot;
use std::marker::Model;

/// Row by row the exponents of the working table, the scale exponents of the parameters, the a priori values, the start vector and
/// the radii; and the pilot.
#[derive(Drop)]
pub struct Rows<'a> {
    exponents: &'a [i32],
    scales: &'a [i32],
    apriori: &'a [Dec],
    vector: &'a [i128],
    radii: &'a [u128],
    pilot: &'a Pilot,
}

impl<'a> Model for Rows<'a> {
    ghost use Rattle.bounds_report.specs.Rows.{RowLists, AreRows};

    ghost Value = { RowLists };

    ghost view = { λ r. record { exponents = r.exponents.now; scales = r.scales.now; apriori = r.apriori.now; vector = r.vector.now; radii = r.radii.now; pilot = r.pilot.now } };

    ghost invariant = { λ r. AreRows (record { exponents = r.exponents.now; scales = r.scales.now; apriori = r.apriori.now; vector = r.vector.now; radii = r.radii.now; pilot = r.pilot.now }) };
}

impl<'a> Rows<'a> {
    /// The rows of five lists and a pilot.
    pub fn new(
        exponents: &'a [i32],
        scales: &'a [i32],
        apriori: &'a [Dec],
        vector: &'a [i128],
        radii: &'a [u128],
        pilot: &'a Pilot,
    ) -> Rows<'a>
        requires { AreRows (record { exponents = exponents.now; scales = scales.now; apriori = apriori.now; vector = vector.now; radii = radii.now; pilot = pilot.now }) }
        ensures { result ≡ record { exponents = exponents.now; scales = scales.now; apriori = apriori.now; vector = vector.now; radii = radii.now; pilot = pilot.now } }
    {
        Rows {
            exponents,
            scales,
            apriori,
            vector,
            radii,
            pilot,
        }
    }

    /// How many rows there are.
    pub fn count(&self) -> usize
        ensures { result ≡ row_count self.now }
    {
        self.apriori.len()
    }

    /// The power of a row: its exponent plus the scale exponent of its parameter.
    pub fn power(&self, i: usize) -> i32
        requires { i < row_count self.now }
        ensures value { result ≡ power_at self.now i }
        ensures least { negsuc 12 ≤ℤ result }
        ensures most { result ≤ℤ pos 17 }
    {
        let exponents = self.exponents;
        let scales = self.scales;
        exponents[i] + scales[i]
    }

    /// The a priori value of a row.
    pub fn apriori(&self, i: usize) -> Dec
        requires { i < row_count self.now }
        ensures value { result ≡ apriori_at self.now i }
        ensures most { IsAtMost (10 ^ 12) result }
    {
        let apriori = self.apriori;
        apriori[i]
    }

    /// The number of the start vector of a row.
    pub fn vector(&self, i: usize) -> i128
        requires { i < row_count self.now }
        ensures value { result ≡ vector_at self.now i }
        ensures bound { unsigned_abs result ≤ 2 ^ 64 }
    {
        let vector = self.vector;
        vector[i]
    }

    /// The radius of a row.
    pub fn radius(&self, i: usize) -> u128
        requires { i < row_count self.now }
        ensures value { result ≡ radius_at self.now i }
        ensures bound { result ≤ 2 ^ 97 }
    {
        let radii = self.radii;
        radii[i]
    }

    /// The scale of the pilot.
    pub fn scale(&self) -> u32
        ensures value { result ≡ self.now.pilot.g }
        ensures most { result ≤ 50 }
    {
        self.pilot.g()
    }

    /// The number of the pilot's diagonal in a row.
    pub fn diagonal(&self, i: usize) -> i64
        requires { i < row_count self.now }
        ensures value { result ≡ pilot_entry self.now.pilot i i }
        ensures bound { unsigned_abs result ≤ 2 ^ 50 }
    {
        self.pilot.entry(i, i)
    }
}
