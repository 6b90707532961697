//! The report of bounds, as text.
ghost use Rattle.std.specs.Prelude.{◌≡◌, ◌++◌, ◌∷◌, ◌+◌, ◌<◌, ◌/◌, ◌%◌, ◌^◌, length, slice_get, Some, flat_map, IfOk, string_bytes, codes};
ghost use Rattle.bounds_text.specs.Report.{units_text, bound_text, bounds_line, bounds_lines, certificate_line, numbers_report};
ghost use Rattle.stack_rules.specs.Rules.{numbers_in};

use bounds_report::Printed;
use param_ids::{Names, ParamId, push_label};
use stack_rules::Solved;
use std::alloc::{AllocError, Global};

// One metre, in units of 10^-16.
const UNITS: u128 = 10_000_000_000_000_000;

// So many units of 10^-16.
fn units_text(alloc: Global, units: u128) -> Result<String, AllocError>
    ensures { IfOk result (λ text. string_bytes text ≡ units_text units) }
{
    let whole = units / UNITS;
    let rest = (units % UNITS) as u64;
    format!(in alloc; "{whole}.{rest:016}")
}

// A bound in units of 10^-16.
fn bound_text(alloc: Global, units: i128) -> Result<String, AllocError>
    ensures { IfOk result (λ text. string_bytes text ≡ bound_text units) }
{
    let size = units_text(alloc, units.unsigned_abs())?;
    if units < 0 {
        format!(in alloc; "-{size}")
    } else {
        Ok(size)
    }
}

// The line of a row with this index.
fn bounds_line(
    alloc: Global,
    index: usize,
    id: &ParamId,
    unit: &[u8; 4],
    n: &Printed,
) -> Result<Vec<u8>, AllocError>
    ensures { IfOk result (λ line. line.items ≡ bounds_line index id.now unit.now n.now) }
{
    let lower = bound_text(alloc, n.lower)?;
    let upper = bound_text(alloc, n.upper)?;
    let residual = n.residual;
    let place = n.place;
    let numbers = format!(in alloc; " {lower} {upper} {residual}E{place}\n")?;
    let mut line = Vec::new(alloc);
    push_label(&mut line, index, id, unit)?;
    line.extend_from_slice(numbers.as_bytes())?;
    Ok(line)
}

// The unit of row k, counted from 0.
fn unit_of(units: &[[u8; 4]], k: usize) -> &[u8; 4]
    requires { k < length units.now }
    ensures { slice_get units.now k ≡ Some result.now }
{
    &units[k]
}

// The numbers of row k.
fn printed_of(numbers: &[Printed], k: usize) -> &Printed
    requires { k < length numbers.now }
    ensures { slice_get numbers.now k ≡ Some result.now }
{
    &numbers[k]
}

// The lines of all rows, in the order of the names.
fn bounds_lines(
    alloc: Global,
    names: &Names,
    units: &[[u8; 4]],
    numbers: &[Printed],
) -> Result<Vec<u8>, AllocError>
    requires units { length units.now ≡ length names.now }
    requires numbers { length numbers.now ≡ length names.now }
    ensures { IfOk result (λ text. text.items ≡ flat_map (λ line. line) (bounds_lines 1 names.now units.now numbers.now)) }
{
    let mut text = Vec::new(alloc);
    for k in 0..names.len() {
        let unit = unit_of(units, k);
        let printed = printed_of(numbers, k);
        let line = bounds_line(alloc, k + 1, names.at(k), unit, printed)?;
        text.extend_from_slice(&line)?;
    }
    Ok(text)
}

// The line of the certificate.
fn certificate_line(alloc: Global, s: &Solved, rows: usize) -> Result<String, AllocError>
    ensures { IfOk result (λ line. string_bytes line ≡ certificate_line s.now.g s.now.parts s.now.error rows) }
{
    let g = s.g;
    let parts = s.parts;
    let error = s.error;
    format!(in alloc; "CERT g={g} B={parts} M={error} N={rows}\n")
}

// The certificate's line and those of the rows, between the first line and the last.
fn framed(alloc: Global, certificate: &str, lines: &[u8]) -> Result<Vec<u8>, AllocError>
    ensures { IfOk result (λ text. text.items ≡ codes "SNXCOMB BOUNDS 1\n" ++ (certificate.now ++ (lines.now ++ codes "END\n"))) }
{
    let mut text = Vec::from_slice(alloc, b"SNXCOMB BOUNDS 1\n")?;
    text.extend_from_slice(certificate.as_bytes())?;
    text.extend_from_slice(lines)?;
    text.extend_from_slice(b"END\n")?;
    Ok(text)
}

/// The report of all rows, in the order of their names: each index counts from 1, each unit has four bytes.
pub fn report(
    alloc: Global,
    names: &Names,
    units: &[[u8; 4]],
    solved: &Solved,
) -> Result<Vec<u8>, AllocError>
    requires units { length units.now ≡ length names.now }
    requires numbers { length solved.now.rows.items ≡ length names.now }
    ensures { IfOk result (λ text. text.items ≡ numbers_report names.now units.now (numbers_in solved.now)) }
{
    let certificate = certificate_line(alloc, solved, names.len())?;
    let lines = bounds_lines(alloc, names, units, &solved.rows)?;
    framed(alloc, certificate.as_str(), &lines)
}
