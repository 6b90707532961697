//! Whole numbers over the square of a decimal, as weights are made of standard deviations.
#![tactic(auto)]

ghost use Rattle.std.specs.Prelude.{◌≤◌, ◌<◌, ◌≡◌, ◌^◌, pos, negsuc, ◌≤ℤ◌, ◌<ℤ◌, unsigned_abs, SomeIff};
ghost use Rattle.whole_numbers.specs.Intervals.{Interval, size};
ghost use Rattle.inverse_squares.specs.Quotients.{IsOverSquare, OneOverSquare, OverSquareExists, OverSquareHolds, square, power_left};
ghost use Rattle.inverse_squares.specs.Worked.{AreWorked};

mod division;

use decimal_e::Dec;
use division::times_tens;
use interval_word::Iv;
use whole_numbers::product;

/// The square of the whole number in front of the power of ten.
fn square_of(s: &Dec) -> i128
    requires positive { pos 0 <ℤ s.now.mant }
    requires short { unsigned_abs s.now.mant < 10 ^ 18 }
    ensures { result ≡ pos (square s.now) }
{
    let mant = s.mant();
    product(mant, mant)
}

/// The power of ten that is left for `h` over that square.
fn power_for(s: &Dec, z: i32) -> i32
    requires low { negsuc 99 ≤ℤ z }
    requires high { z ≤ℤ pos 100 }
    ensures value { result ≡ power_left s.now z }
    ensures low { negsuc 1999 ≤ℤ result }
    ensures high { result ≤ℤ pos 2000 }
{
    let exp = s.exp();
    z - exp - exp
}

/// The interval of `h * 10^z / s^2`, rounded outward, and None exactly where an end passes `10^37` in size.
pub fn over_square(h: i128, s: &Dec, z: i32) -> Option<Iv>
    requires positive { pos 0 <ℤ s.now.mant }
    requires short { unsigned_abs s.now.mant < 10 ^ 18 }
    requires few { unsigned_abs h ≤ 10 ^ 24 }
    requires low { negsuc 99 ≤ℤ z }
    requires high { z ≤ℤ pos 100 }
    ensures { (w : Interval) × IsOverSquare h s.now z w × SomeIff result (size w ≤ 10 ^ 37) w }
{
    times_tens(h, square_of(s), power_for(s, z))
}

/// There is one interval over a square and no other, and it holds the exact value.
pub fn squares_hold()
    ensures one { OneOverSquare }
    ensures exists { OverSquareExists }
    ensures holds { OverSquareHolds }
{}

/// Quotients worked by hand are these intervals.
pub fn worked_squares()
    ensures { AreWorked }
{}

#[cfg(test)]
mod tests {
    use super::*;
    use std::test::Fail;

    // The interval of h * 10^z / (mant * 10^exp)^2, where the numbers are those that may be asked for.
    fn asked(h: i128, mant: i128, exp: i32, z: i32) -> Option<Option<Iv>> {
        if h.unsigned_abs() > 1_000_000_000_000_000_000_000_000 || z < -100 || 100 < z {
            return None;
        }
        if exp < -800 || 120 < exp {
            return None;
        }
        let s = Dec::new(mant, exp)?;
        if s.mant() <= 0 || 1_000_000_000_000_000_000 <= s.mant() {
            return None;
        }
        Some(over_square(h, &s, z))
    }

    #[test]
    fn weights(rt: HostRuntime) -> Result<(), Fail> {
        squares_hold();
        worked_squares();
        for (h, mant, exp, z, interval) in [
            (
                16_000_000_000_000,
                1,
                -3,
                4,
                Iv::new(
                    160_000_000_000_000_000_000_000,
                    160_000_000_000_000_000_000_000,
                ),
            ),
            (1, 3, 0, 0, Iv::new(0, 1)),
            (-1, 3, 0, 0, Iv::new(-1, 0)),
            (100, 3, 1, 1, Iv::new(1, 2)),
            (-100, 3, 1, 1, Iv::new(-2, -1)),
            (
                1_000_000_000_000_000_000_000_000,
                1,
                0,
                13,
                Iv::new(
                    10_000_000_000_000_000_000_000_000_000_000_000_000,
                    10_000_000_000_000_000_000_000_000_000_000_000_000,
                ),
            ),
            (1_000_000_000_000_000_000_000_000, 1, 0, 14, None),
            (1, 1, 0, 38, None),
            (
                1,
                123_457,
                -10,
                18,
                Iv::new(
                    6_560_977_692_656_883_741_063_501_990,
                    6_560_977_692_656_883_741_063_502_000,
                ),
            ),
            (7, 1, 10, 0, Iv::new(0, 1)),
            (7, 1, 30, 0, Iv::new(0, 1)),
            (-7, 1, 30, 0, Iv::new(-1, 0)),
            (0, 1, 30, 0, Iv::new(0, 0)),
            (0, 3, -9, 100, Iv::new(0, 0)),
        ] {
            assert_eq!(rt;
                asked(h, mant, exp, z),
                Some(interval),
                "{h} over the square of {mant}E{exp}, times 1E{z}"
            );
        }
        Ok(())
    }
}
