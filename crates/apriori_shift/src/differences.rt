//! The differences between common and old a priori values.

ghost use Rattle.std.specs.Prelude.{◌≡◌, ◌≤◌, ◌^◌, ◌↔◌, pos, All, IfOk, IsTrue, length, map};
ghost use Rattle.whole_numbers.specs.Intervals.{size};
ghost use Rattle.decimal_e.specs.Fractions.{IsAtMost};
ghost use Rattle.decimal_e.specs.Scales.{decimal_interval};
ghost use Rattle.apriori_shift.specs.Shifts.{IsDifference, AreDifferences};
ghost use Rattle.apriori_shift.specs.Answers.{common_value};

use crate::commons::Apriori;
use decimal_e::{Dec, interval_at};
use interval_word::Iv;
use param_ids::{Names, ParamId};
use std::alloc::{AllocError, Global};

/// The common value of a name.
fn value_in(base: &Apriori, id: &ParamId) -> Dec
    ensures { result ≡ common_value base.now id.now }
{
    match base.get(id) {
        Some(row) => row.value,
        None => Dec::zero(),
    }
}

/// The common values of names.
pub fn values_of(alloc: Global, names: &Names, base: &Apriori) -> Result<Vec<Dec>, AllocError>
    ensures { IfOk result (λ values. values.items ≡ map (common_value base.now) names.now) }
{
    let mut values = Vec::new(alloc);
    for place in 0..names.len() {
        values.push(value_in(base, names.at(place)))?;
    }
    Ok(values)
}

/// Whether two decimals are one.
fn is_same(one: &Dec, other: &Dec) -> bool
    ensures { IsTrue result ↔ (one.now ≡ other.now) }
{
    one == other
}

/// Whether two lists of values, equally long, are one.
pub fn are_same(ones: &[Dec], others: &[Dec]) -> bool
    requires { length others.now ≡ length ones.now }
    ensures { IsTrue result ↔ (ones.now ≡ others.now) }
{
    for place in 0..ones.len() {
        if !is_same(&ones[place], &others[place]) {
            return false;
        }
    }
    true
}

/// The interval of a value times 10^20.
fn wide(value: &Dec) -> Iv
    requires { IsAtMost (10 ^ 12) value.now }
    ensures value { result ≡ decimal_interval value.now (pos 20) }
    ensures bound { size result ≤ 10 ^ 32 }
{
    match interval_at(value, 20) {
        Some(interval) => interval,
        None => unreachable!(),
    }
}

/// The difference of two values times 10^20: zero where they are equal.
fn difference(to: &Dec, from: &Dec) -> Iv
    requires to { IsAtMost (10 ^ 12) to.now }
    requires from { IsAtMost (10 ^ 12) from.now }
    ensures { IsDifference to.now from.now result }
{
    if is_same(to, from) {
        Iv::point(0)
    } else {
        wide(to).sub(&wide(from))
    }
}

/// The differences of two lists of values, equally long, times 10^20.
pub fn differences_of(alloc: Global, values: &[Dec], olds: &[Dec]) -> Result<Vec<Iv>, AllocError>
    requires lengths { length olds.now ≡ length values.now }
    requires values { All (IsAtMost (10 ^ 12)) values.now }
    requires olds { All (IsAtMost (10 ^ 12)) olds.now }
    ensures { IfOk result (λ differences. AreDifferences values.now olds.now differences.items) }
{
    let mut differences = Vec::new(alloc);
    for place in 0..values.len() {
        differences.push(difference(&values[place], &olds[place]))?;
    }
    Ok(differences)
}
