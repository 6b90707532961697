//! The rows of the datum in the whole stack.

ghost use Rattle.std.specs.Prelude.{◌≡◌, ◌≢◌, ◌*◌, ◌^◌, IfOk, IfErr, IfSome, Ok, Err};
ghost use Rattle.std.specs.Option.{option_map};
ghost use Rattle.control_doc.specs.Valid.{HasPositiveSigmas};
ghost use Rattle.control_doc.specs.Views.{datum_view};
ghost use Rattle.neq_stack.specs.ByName.{AreAtMost};
ghost use Rattle.neq_stack.specs.Neqs.{IsSound, neq_view};
ghost use Rattle.refusal_lines.specs.Refusals.{status_of};
ghost use Rattle.run_inputs.specs.Views.{IfTold};
ghost use Rattle.combine_cli.specs.Combination.{AddsDatum};
ghost use Rattle.combine_cli.specs.Parts.{added_view};

use crate::naming::name_at;
use control_doc::Datum;
use datum_rows::{DatumError, add_datum};
use neq_stack::Neq;
use refusal_lines::{Refusal, Scope};
use std::alloc::{AllocError, Global};

// The same normal equations once more.
fn copy_of(alloc: Global, neq: &Neq<16>) -> Result<Neq<16>, AllocError>
    ensures { IfOk result (λ copy. neq_view copy ≡ neq_view neq.now) }
{
    let names = neq.names.clone_in()?;
    let table = neq.table.clone_in()?;
    let right = Vec::from_slice(alloc, &neq.right)?;
    let apriori = Vec::from_slice(alloc, &neq.apriori)?;
    let units = Vec::from_slice(alloc, &neq.units)?;
    let scales = Vec::from_slice(alloc, &neq.scales)?;
    Ok(Neq {
        names,
        table,
        right,
        apriori,
        units,
        scales,
    })
}

// A copy of the stack with the rows of the datum, or nothing where there is no datum.
pub fn with_datum(
    alloc: Global,
    datum: Option<&Datum>,
    free: &Neq<16>,
) -> Result<Option<Neq<16>>, Refusal>
    requires sound { IsSound (neq_view free.now) }
    requires modest { AreAtMost (64 * 10 ^ 36) (neq_view free.now) }
    requires positive { IfSome datum (λ given. HasPositiveSigmas (datum_view given.now)) }
    ensures added { IfOk result (λ added. AddsDatum (option_map (λ given. datum_view given.now) datum.entry) (neq_view free.now) (Ok (added_view (neq_view free.now) added))) }
    ensures sound { IfOk result (λ added. IsSound (added_view (neq_view free.now) added)) }
    ensures refused { IfErr result (IfTold (λ refusal. AddsDatum (option_map (λ given. datum_view given.now) datum.entry) (neq_view free.now) (Err refusal))) }
    ensures no_fault { IfErr result (λ refusal. status_of refusal ≢ 5) }
{
    let Some(datum) = datum else {
        return Ok(None);
    };
    let mut neq = copy_of(alloc, free)?;
    match add_datum(alloc, &mut neq, datum) {
        Ok(()) => Ok(Some(neq)),
        Err(DatumError::Unmatched { site }) => Err(Refusal::UnmatchedSite { site }),
        Err(DatumError::Range { row, col }) => Err(Refusal::Range {
            place: Scope::Stack,
            row: name_at(&free.names, row),
            col: name_at(&free.names, col),
        }),
        Err(DatumError::Memory) => Err(Refusal::Memory),
    }
}

// The stack with the rows of the datum, where they were added, and else the stack itself.
pub fn solved_stack<'a>(free: &'a Neq<16>, added: &'a Option<Neq<16>>) -> &'a Neq<16>
    ensures { neq_view result.now ≡ added_view (neq_view free.now) added.now }
{
    match added {
        Some(neq) => neq,
        None => free,
    }
}
