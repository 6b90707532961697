//! The columns of an inverse in a table.

ghost use Rattle.std.specs.Prelude.{◌≡◌, ◌≤◌, ◌<◌, ◌⊎◌, ◌^◌, ℕ, pos, negsuc, ◌+ℤ◌, ◌-ℤ◌, ◌≤ℤ◌, length, unsigned_abs, IfOk, IfErr, Err};
ghost use Rattle.whole_numbers.specs.Scaling.{interval_scale10};
ghost use Rattle.sym_blocks.specs.Tables.{before, entry_at};
ghost use Rattle.sys_model.specs.Systems.{around};
ghost use Rattle.equil.specs.Rows.{AllInRange};
ghost use Rattle.equil.specs.Tables.{exponent_of};
ghost use Rattle.inv_enclose.specs.Columns.{AreColumns, AreColumnsByEither};
ghost use Rattle.inv_enclose.specs.Parts.{column_of, IsInBounds, IsKept, scaled_interval, AreShown, AreShownByEither, IsShownInverse, IsColumnRefused};
ghost use Rattle.inv_enclose.specs.declared.InvError.TheVariants.{Memory};

use crate::InvError;
use crate::columns::{EnclosedColumn, column, unit_power};
use crate::refusals::wants_memory;
use enclosure_check::{WorkingRows, defects, transposed};
use enclosures::Pilot;
use equil::Working;
use interval_word::Iv;
use std::alloc::Global;
use sym_blocks::SymBlock;

/// A number past every bound.
const FAR: i128 = 100_000_000_000_000_000_000_000_000_000_000_000_000;

/// The interval of the numbers at most `radius` from `middle`.
fn near(middle: i128, radius: u128) -> Iv
    requires middle { unsigned_abs middle ≤ 2 ^ 64 }
    requires radius { radius ≤ 2 ^ 97 }
    ensures { result ≡ around middle radius }
{
    let wide = radius as i128;
    match Iv::new(middle - wide, middle + wide) {
        Some(interval) => interval,
        None => unreachable!(),
    }
}

/// That interval times 10^k, rounded outward, or one that is too great, as it is.
fn near_at(middle: i128, radius: u128, k: i32) -> Iv
    requires middle { unsigned_abs middle ≤ 2 ^ 64 }
    requires radius { radius ≤ 2 ^ 97 }
    ensures { IsKept (interval_scale10 (around middle radius) k) result }
{
    match near(middle, radius).scale10(k) {
        Some(interval) => interval,
        None => Iv::point(FAR),
    }
}

/// The power of ten of a row and a column.
fn pair_power(shift: i32, exponents: &[i32], row: usize, col: usize) -> i32
    requires low { negsuc 199 ≤ℤ shift }
    requires high { shift ≤ℤ pos 200 }
    requires row { row < length exponents.now }
    requires col { col < length exponents.now }
    requires range { AllInRange exponents.now }
    ensures { result ≡ shift -ℤ exponent_of exponents.now row -ℤ exponent_of exponents.now col }
{
    shift - exponents[row] - exponents[col]
}

/// The interval of a row of a column, times its power of ten, or one that is too great, as it is.
fn shown_at(column: &EnclosedColumn, shift: i32, exponents: &[i32], row: usize, col: usize) -> Iv
    requires low { negsuc 199 ≤ℤ shift }
    requires high { shift ≤ℤ pos 200 }
    requires row { row < length exponents.now }
    requires col { col < length exponents.now }
    requires range { AllInRange exponents.now }
    requires bounds { IsInBounds (length exponents.now) (column_of column.now) }
    ensures { IsKept (scaled_interval shift (exponent_of exponents.now) (column_of column.now) row col) result }
{
    let power = pair_power(shift, exponents, row, col);
    near_at(column.vector[row], column.radius.w[row], power)
}

/// Puts a column into the table from its diagonal on.
fn place_column<const N: usize>(
    table: &mut SymBlock<N>,
    column: &EnclosedColumn,
    shift: i32,
    exponents: &[i32],
    col: usize,
)
    requires low { negsuc 199 ≤ℤ shift }
    requires high { shift ≤ℤ pos 200 }
    requires sizes { length exponents.now ≡ table.old.size }
    requires range { AllInRange exponents.now }
    requires col { col < table.old.size }
    requires bounds { IsInBounds (length exponents.now) (column_of column.now) }
    ensures size { table.new.size ≡ table.old.size }
    ensures whole { length table.new.entries ≡ before table.new.size }
    ensures shown { (i : ℕ) → col ≤ i → i < table.old.size
        → IsKept (scaled_interval shift (exponent_of exponents.now) (column_of column.now) i col) (entry_at table.new i col) }
    ensures others { (i j : ℕ) → i < table.old.size → j < col → entry_at table.new i j ≡ entry_at table.old i j }
{
    for row in col..table.size() {
        let interval = shown_at(column, shift, exponents, row, col);
        table.set(row, col, interval);
    }
}

/// The power of ten of a place whose exponents are zero.
fn shift_of(kappa: i32, v: u32) -> i32
    requires low { negsuc 99 ≤ℤ kappa }
    requires high { kappa ≤ℤ pos 100 }
    requires power { v ≤ 34 }
    ensures value { result ≡ kappa +ℤ pos 18 -ℤ pos v }
    ensures low { negsuc 199 ≤ℤ result }
    ensures high { result ≤ℤ pos 200 }
{
    kappa + 18 - v.cast_signed()
}

/// The inverse of a working table by one table in the place of the pilot, times 10^(shift - e_i - e_j), where intervals that pass their
/// bound stand as too great ones.
fn shown_inverse<const N: usize>(
    alloc: Global,
    rows: &WorkingRows<'_, N>,
    exponents: &[i32],
    pilot: &Pilot,
    v: u32,
    shift: i32,
) -> Result<SymBlock<N>, InvError>
    requires low { negsuc 199 ≤ℤ shift }
    requires high { shift ≤ℤ pos 200 }
    requires power { v ≤ 34 }
    requires sizes { pilot.now.size ≡ rows.now.table.now.size }
    requires exponents { length exponents.now ≡ rows.now.table.now.size }
    requires range { AllInRange exponents.now }
    ensures size { IfOk result (λ out. out.size ≡ rows.now.table.now.size) }
    ensures whole { IfOk result (λ out. length out.entries ≡ before out.size) }
    ensures shown { IfOk result (AreShown rows.now.table.now.size rows.now.table.now pilot.now v shift (exponent_of exponents.now) rows.now.table.now.size) }
    ensures refused { IfErr result (λ cause. (cause ≡ Memory) ⊎ AreColumns rows.now.table.now.size rows.now.table.now pilot.now v (Err cause)) }
{
    let row_defects = defects(alloc, rows, pilot)?;
    let mut out = SymBlock::<N>::zero(alloc, rows.table.size())?;
    for c in 0..out.size() {
        let enclosed = column(alloc, rows, pilot, &row_defects, v, c)?;
        place_column(&mut out, &enclosed, shift, exponents, c);
    }
    Ok(out)
}

/// The inverse by the pilot transposed, where the pilot itself was refused; where the transpose is refused too, that refusal.
fn shown_by_transposed<const N: usize>(
    alloc: Global,
    rows: &WorkingRows<'_, N>,
    exponents: &[i32],
    pilot: &Pilot,
    v: u32,
    shift: i32,
    refusal: InvError,
) -> Result<SymBlock<N>, InvError>
    requires low { negsuc 199 ≤ℤ shift }
    requires high { shift ≤ℤ pos 200 }
    requires power { v ≤ 34 }
    requires sizes { pilot.now.size ≡ rows.now.table.now.size }
    requires exponents { length exponents.now ≡ rows.now.table.now.size }
    requires range { AllInRange exponents.now }
    requires refused { AreColumns rows.now.table.now.size rows.now.table.now pilot.now v (Err refusal) }
    ensures size { IfOk result (λ out. out.size ≡ rows.now.table.now.size) }
    ensures whole { IfOk result (λ out. length out.entries ≡ before out.size) }
    ensures shown { IfOk result (AreShownByEither rows.now.table.now.size rows.now.table.now pilot.now v shift (exponent_of exponents.now)) }
    ensures refused { IfErr result (λ cause. (cause ≡ Memory) ⊎ AreColumnsByEither rows.now.table.now.size rows.now.table.now pilot.now v (Err cause)) }
{
    let turned = transposed(alloc, pilot)?;
    match shown_inverse(alloc, rows, exponents, &turned, v, shift) {
        Ok(shown) => Ok(shown),
        Err(InvError::Memory) => Err(InvError::Memory),
        Err(_) => Err(refusal),
    }
}

/// The inverse of a working table times 10^(18 + kappa - e_i - e_j), where intervals that pass their bound stand as too great ones: by
/// the pilot or, where a column of it is refused, by the pilot transposed; where both are refused, the refusal is that of the pilot.
pub fn shown_by_either<const N: usize>(
    alloc: Global,
    w: &Working<N>,
    pilot: &Pilot,
    kappa: i32,
) -> Result<SymBlock<N>, InvError>
    requires low { negsuc 99 ≤ℤ kappa }
    requires high { kappa ≤ℤ pos 100 }
    requires sizes { pilot.now.size ≡ w.now.a.size }
    ensures size { IfOk result (λ out. out.size ≡ w.now.a.size) }
    ensures whole { IfOk result (λ out. length out.entries ≡ before out.size) }
    ensures shown { IfOk result (IsShownInverse w.now.a.size kappa w.now.a (exponent_of w.now.e.items) pilot.now) }
    ensures refused { IfErr result (λ cause. (cause ≡ Memory) ⊎ IsColumnRefused w.now.a.size w.now.a pilot.now cause) }
{
    let rows = WorkingRows::of(alloc, &w.a)?;
    let v = unit_power(pilot.g());
    let shift = shift_of(kappa, v);
    match shown_inverse(alloc, &rows, &w.e, pilot, v, shift) {
        Ok(shown) => Ok(shown),
        Err(refusal) => {
            if wants_memory(refusal) {
                Err(refusal)
            } else {
                shown_by_transposed(alloc, &rows, &w.e, pilot, v, shift, refusal)
            }
        }
    }
}
