//! The control file of a command.

ghost use Rattle.std.specs.Prelude.{◌≡◌, ◌≢◌, ◌≤◌, map, IsTrue, IfOk, IfErr, Ok, Err, length};
ghost use Rattle.std.specs.List.{find};
ghost use Rattle.std.specs.Option.{option_map};
ghost use Rattle.desk_io.specs.Content.{KeepsAll};
ghost use Rattle.control_doc.specs.Valid.{IsValidControl};
ghost use Rattle.control_doc.specs.Views.{control_view, plan_view};
ghost use Rattle.refusal_lines.specs.Refusals.{status_of};
ghost use Rattle.run_inputs.specs.Controls.{ReadsControl, SaysControl, SaysRun, is_named, apart_from, built_of};
ghost use Rattle.run_inputs.specs.Views.{combined_files, status_in, IfTold, HasStatusCause};

use crate::files::{named, read_file};
use crate::words::CombineNames;
use control_doc::{Control, ControlCause, ControlError, FilePlan, read_control};
use desk_io::Desk;
use refusal_lines::Refusal;
use std::alloc::Global;

// The most bytes of a control file: 1 MiB.
const CONTROL_LIMIT: usize = 1_048_576;

// Whether a listed file is also the control file or an output.
fn is_named(names: &CombineNames<'_>, plan: &FilePlan) -> bool
    ensures { result ≡ is_named (combined_files names.now) (plan_view plan.now) }
{
    let name = plan.name.as_str();
    name == names.control || (name == names.out || name == names.report)
}

// The first listed file that is.
fn first_named<'a>(names: &CombineNames<'_>, files: &'a [FilePlan]) -> Option<&'a FilePlan>
    ensures { option_map (λ plan. plan_view plan.now) result ≡ find (is_named (combined_files names.now)) (map plan_view files.now) }
{
    for plan in files {
        if is_named(names, plan) {
            return Some(plan);
        }
    }
    None
}

// Refuses the first listed file that is also the control file or an output.
fn kept_apart(alloc: Global, names: &CombineNames<'_>, files: &[FilePlan]) -> Result<(), Refusal>
    ensures kept { IfOk result (λ _. Ok tt ≡ apart_from (find (is_named (combined_files names.now)) (map plan_view files.now))) }
    ensures refused { IfErr result (IfTold (λ refusal. Err refusal ≡ apart_from (find (is_named (combined_files names.now)) (map plan_view files.now)))) }
    ensures no_fault { IfErr result (λ refusal. status_of refusal ≢ 5) }
{
    match first_named(names, files) {
        None => Ok(()),
        Some(plan) => Err(Refusal::Control {
            cause: ControlCause::SameName,
            path: named(alloc, plan.name.as_str())?,
        }),
    }
}

// Refuses a control that asks for what is not built.
fn all_built(alloc: Global, from: &str, control: &Control) -> Result<(), Refusal>
    ensures built { IfOk result (λ _. Ok tt ≡ built_of from.now (control_view control.now).reductions) }
    ensures refused { IfErr result (IfTold (λ refusal. Err refusal ≡ built_of from.now (control_view control.now).reductions)) }
    ensures no_fault { IfErr result (λ refusal. status_of refusal ≢ 5) }
{
    if control.reductions.is_empty() {
        Ok(())
    } else {
        Err(Refusal::Unbuilt {
            name: named(alloc, from)?,
        })
    }
}

// The control that a text says.
fn said(alloc: Global, text: &[u8]) -> Result<Control, Refusal>
    ensures control { IfOk result (λ control. SaysControl text.now (Ok (control_view control))) }
    ensures valid { IfOk result (λ control. IsValidControl (control_view control)) }
    ensures refused { IfErr result (IfTold (λ refusal. SaysControl text.now (Err refusal))) }
    ensures no_fault { IfErr result (λ refusal. status_of refusal ≢ 5) }
{
    match read_control(alloc, text) {
        Ok(control) => Ok(control),
        Err(ControlError::Fault(fault)) => Err(Refusal::Control {
            cause: fault.cause,
            path: named(alloc, fault.path.as_str())?,
        }),
        Err(ControlError::Memory) => Err(Refusal::Memory),
    }
}

// The control that a text says, of which a run is made.
fn run_said(alloc: Global, names: &CombineNames<'_>, text: &[u8]) -> Result<Control, Refusal>
    ensures control { IfOk result (λ control. SaysRun (combined_files names.now) text.now (Ok (control_view control))) }
    ensures valid { IfOk result (λ control. IsValidControl (control_view control)) }
    ensures refused { IfErr result (IfTold (λ refusal. SaysRun (combined_files names.now) text.now (Err refusal))) }
    ensures no_fault { IfErr result (λ refusal. status_of refusal ≢ 5) }
{
    let control = said(alloc, text)?;
    kept_apart(alloc, names, &control.files)?;
    all_built(alloc, names.control, &control)?;
    Ok(control)
}

/// The control of a combination, read from its file.
///
/// # Errors
///
/// NoFile, TooLong past 1 MiB, Control with the first fault; Control with SameName for the first listed file that is also the
/// control file or an output; Unbuilt where it has a reduction; want of memory, or a fault of the desk.
pub fn read_control_file<D: Desk>(
    alloc: Global,
    names: &CombineNames<'_>,
    desk: &mut D,
) -> Result<Control, Refusal>
    ensures control { IsTrue D.tells → IfOk result (λ control. ReadsControl (combined_files names.now) (D.content desk.old).files (Ok (control_view control))) }
    ensures valid { IfOk result (λ control. IsValidControl (control_view control)) }
    ensures refused { IsTrue D.tells → IfErr result (IfTold (λ refusal. ReadsControl (combined_files names.now) (D.content desk.old).files (Err refusal))) }
    ensures keeps { IsTrue D.tells → KeepsAll (D.content desk.old) (D.content desk.new) }
    ensures cause { HasStatusCause (D.faults desk.old) (D.faults desk.new) (status_in result) }
{
    let text = read_file(alloc, names.control, CONTROL_LIMIT, desk)?;
    run_said(alloc, names, &text)
}
