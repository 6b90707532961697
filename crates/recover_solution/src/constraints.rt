//! The table of standard deviations.

ghost use Rattle.std.specs.Prelude.{◌≡◌, ◌≤◌, ◌<◌, ◌⊎◌, ◌^◌, ℕ, pos, ◌≤ℤ◌, ◌<ℤ◌, All, IfOk, IfErr, IfSome, IfNone, SomeIff, Ok, Err, Some, length, unsigned_abs};
ghost use Rattle.stated_order.specs.Steps.{HasOne};
ghost use Rattle.whole_numbers.specs.Intervals.{interval_scale, size};
ghost use Rattle.param_ids.specs.Order.{IsNames};
ghost use Rattle.snx_rows.specs.Blocks.{HasShortDeviation};
ghost use Rattle.neq_stack.specs.Systems.{NamedSystem};
ghost use Rattle.named_tables.specs.Deviations.{sigma_of};
ghost use Rattle.named_tables.specs.Tables.{LiesInTable};
ghost use Rattle.named_tables.specs.Weighted.{IsWeight, WeightFits, entry_power, weighted_interval};
ghost use Rattle.named_tables.specs.declared.faults.RecoverError.TheVariants.{Memory, Fault};
ghost use Rattle.named_tables.specs.declared.faults.RecoverFault.{RecoverFault};
ghost use Rattle.recover_solution.specs.Exact.{AreSigmaConstraints};
ghost use Rattle.recover_solution.specs.Recovery.{AreDeviationsNamed, IsModestTable, IsSigmaTable, SigmaFits};
ghost use Rattle.recover_solution.specs.Parts.{IsFittingSigma, IsSigmaAt, IsFirstUnfitSigma, IsDiagonal};

use crate::names::{is_row_of, sigma_in};
use decimal_e::Dec;
use interval_word::Iv;
use inverse_squares::over_square;
use named_tables::{RecoverError, RecoverFault};
use param_ids::{Names, ParamId, Scales, scale_of};
use snx_rows::Row;
use std::alloc::{AllocError, Global};
use sym_blocks::SymBlock;

/// The greatest size of an interval times the digits of a weight.
const WIDE: u128 = 10_000_000_000_000_000_000_000_000_000_000_000_000;

/// The greatest size of an interval.
const LIMIT: u128 = 10_000_000_000_000_000_000_000_000_000_000_000;

/// An interval times the digits of a weight, and None exactly where it passes 10^37 in size.
fn times_digits(interval: &Iv, digits: i128) -> Option<Iv>
    requires { pos 0 <ℤ digits }
    ensures { SomeIff result (size (interval_scale digits interval.now) ≤ 10 ^ 37) (interval_scale digits interval.now) }
{
    if interval.mag() > WIDE / digits.unsigned_abs() {
        return None;
    }
    Some(interval.mul_small(digits))
}

/// An interval times a weight, and None exactly where it passes its bounds.
fn weighted(interval: &Iv, weight: &Dec) -> Option<Iv>
    requires { IsWeight weight.now }
    ensures { SomeIff result (WeightFits weight.now interval.now) (weighted_interval weight.now interval.now) }
{
    let digits = times_digits(interval, weight.mant())?;
    digits.scale10_within(weight.exp(), LIMIT)
}

/// The interval of a weight over the square of a standard deviation, times 10^k, and None exactly where it passes its bounds.
fn over_sigma(weight: &Dec, dev: &Dec, k: i32) -> Option<Iv>
    requires weight { IsWeight weight.now }
    requires positive { pos 0 <ℤ dev.now.mant }
    requires short { unsigned_abs dev.now.mant < 10 ^ 18 }
    requires low { pos 6 ≤ℤ k }
    requires high { k ≤ℤ pos 26 }
    ensures some { IfSome result (IsFittingSigma weight.now (Some dev.now) k) }
    ensures none { IfNone result (SigmaFits weight.now (Some dev.now) k → ⊥) }
{
    let Some(interval) = over_square(1, dev, k) else {
        return None;
    };
    weighted(&interval, weight)
}

/// The same, and zero where there is no standard deviation.
fn sigma_interval(weight: &Dec, dev: &Option<Dec>, k: i32) -> Option<Iv>
    requires weight { IsWeight weight.now }
    requires positive { IfSome dev.now (λ d. pos 0 <ℤ d.mant) }
    requires short { IfSome dev.now (λ d. unsigned_abs d.mant < 10 ^ 18) }
    requires low { pos 6 ≤ℤ k }
    requires high { k ≤ℤ pos 26 }
    ensures some { IfSome result (IsFittingSigma weight.now dev.now k) }
    ensures none { IfNone result (SigmaFits weight.now dev.now k → ⊥) }
{
    match dev {
        Some(dev) => over_sigma(weight, dev, k),
        None => Some(Iv::point(0)),
    }
}

/// The standard deviation of the row of a name, where it is positive.
fn sigma_of(apriori: &[Row], id: &ParamId) -> Option<Dec>
    requires { All HasShortDeviation apriori.now }
    ensures value { result ≡ sigma_of apriori.now id.now }
    ensures positive { IfSome result (λ d. pos 0 <ℤ d.mant) }
    ensures short { IfSome result (λ d. unsigned_abs d.mant < 10 ^ 18) }
{
    for row in apriori {
        if is_row_of(id, row) {
            return sigma_in(row);
        }
    }
    None
}

/// The power of ten of a name with itself.
fn power_of(id: &ParamId, scales: &Scales) -> i32
    ensures value { result ≡ entry_power scales.now id.now id.now }
    ensures low { pos 6 ≤ℤ result }
    ensures high { result ≤ℤ pos 26 }
{
    let scale = scale_of(&id.kind, scales);
    18 - scale - scale
}

/// The interval of the standard deviation of a name, and None exactly where it passes its bounds.
fn named_sigma(weight: &Dec, apriori: &[Row], scales: &Scales, id: &ParamId) -> Option<Iv>
    requires weight { IsWeight weight.now }
    requires deviations { All HasShortDeviation apriori.now }
    ensures some { IfSome result (IsFittingSigma weight.now (sigma_of apriori.now id.now) (entry_power scales.now id.now id.now)) }
    ensures none { IfNone result (SigmaFits weight.now (sigma_of apriori.now id.now) (entry_power scales.now id.now id.now) → ⊥) }
{
    sigma_interval(weight, &sigma_of(apriori, id), power_of(id, scales))
}

/// The intervals of the standard deviations of names, or Range for the first name whose interval passes its bounds.
fn sigma_intervals(
    alloc: Global,
    apriori: &[Row],
    weight: &Dec,
    scales: &Scales,
    names: &Names,
) -> Result<Vec<Iv>, RecoverError>
    requires weight { IsWeight weight.now }
    requires deviations { All HasShortDeviation apriori.now }
    ensures len { IfOk result (λ intervals. length intervals.items ≡ length names.now) }
    ensures each { IfOk result (λ intervals. (i : ℕ) → i < length names.now → IsSigmaAt apriori.now weight.now scales.now names.now intervals.items i) }
    ensures refused { IfErr result (λ cause. (cause ≡ Memory) ⊎ ((fault : RecoverFault) × (cause ≡ Fault fault) × IsFirstUnfitSigma apriori.now weight.now scales.now names.now fault)) }
{
    let mut intervals = Vec::new(alloc);
    for place in 0..names.len() {
        let id = names.at(place);
        let Some(interval) = named_sigma(weight, apriori, scales, id) else {
            return Err(RecoverError::Fault(RecoverFault::Range { row: *id, col: *id }));
        };
        if intervals.push(interval).is_err() {
            return Err(RecoverError::Memory);
        }
    }
    Ok(intervals)
}

/// The table with these intervals on its diagonal.
fn diagonal<const N: usize>(alloc: Global, intervals: &[Iv]) -> Result<SymBlock<N>, AllocError>
    requires { length intervals.now ≤ 1000 }
    ensures { IfOk result (IsDiagonal intervals.now) }
{
    let mut table = SymBlock::<N>::zero(alloc, intervals.len())?;
    for place in 0..intervals.len() {
        table.set(place, place, intervals[place]);
    }
    Ok(table)
}

/// The table of the constraints of standard deviations, for these names: on the diagonal, for each name whose a priori row has a positive
/// one, the weight over its square times `10^(18 - 2 t)`, where t is the scale exponent of the name; zero elsewhere. Each is rounded
/// outward after the division and after the weight's power of ten.
///
/// # Errors
///
/// Range, twice under the first name in order whose interval passes 10^37 in size after the weight's digits, or 10^34 after its power of
/// ten; or want of memory.
pub fn sigma_table<const N: usize>(
    alloc: Global,
    apriori: &[Row],
    weight: &Dec,
    scales: &Scales,
    names: &Names,
) -> Result<SymBlock<N>, RecoverError>
    requires weight { IsWeight weight.now }
    requires deviations { All HasShortDeviation apriori.now }
    requires names { IsNames names.now }
    requires named { AreDeviationsNamed apriori.now names.now }
    ensures table { IfOk result (λ table. IsSigmaTable apriori.now weight.now scales.now names.now (Ok table)) }
    ensures refused { IfErr result (λ cause. (cause ≡ Memory) ⊎ ((fault : RecoverFault) × (cause ≡ Fault fault) × IsSigmaTable apriori.now weight.now scales.now names.now (Err fault))) }
    ensures lies { IfOk result (λ table. (K : NamedSystem) → AreSigmaConstraints apriori.now weight.now K → LiesInTable scales.now names.now table K) }
    ensures exists { IfOk result (λ table. HasOne (AreSigmaConstraints apriori.now weight.now)) }
    ensures modest { IfOk result (λ table. IsModestTable table) }
{
    let intervals = sigma_intervals(alloc, apriori, weight, scales, names)?;
    Ok(diagonal(alloc, &intervals)?)
}
