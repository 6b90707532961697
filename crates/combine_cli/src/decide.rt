// What a run is to do, decided before it writes or says anything.
ghost use Rattle.std.specs.Prelude.{◌≡◌, IsTrue, IfErr, IfOk, Ok, Err, map, string_bytes};
ghost use Rattle.desk_io.specs.Content.{KeepsAll};
ghost use Rattle.desk_io.specs.Outputs.{named_text};
ghost use Rattle.control_doc.specs.Valid.{IsValidControl};
ghost use Rattle.control_doc.specs.Views.{control_view};
ghost use Rattle.run_inputs.specs.Views.{command_view, status_in, IfTold, HasStatusCause};
ghost use Rattle.combine_cli.specs.Verdict.{HasControl, Combines, IsVerdict, writes_out, outputs_with};
ghost use Rattle.combine_cli.specs.Plan.{IsPlanned, IsTextsOf, texts_view};

use crate::combining::{Combined, combine_core};
use control_doc::{Control, alone};
use desk_io::{Desk, Output};
use refusal_lines::Refusal;
use run_inputs::{Command, read_control_file, read_inputs, read_words};
use std::alloc::{AllocError, Global};
use std::thread::Threads;

// The control of a command.
fn control_of<D: Desk>(
    alloc: Global,
    command: Command<'_>,
    desk: &mut D,
) -> Result<Control, Refusal>
    ensures control { IsTrue D.tells → IfOk result (λ control. HasControl (command_view command.entry) (D.content desk.old).files (Ok (control_view control))) }
    ensures valid { IfOk result (λ control. IsValidControl (control_view control)) }
    ensures refused { IsTrue D.tells → IfErr result (IfTold (λ refusal. HasControl (command_view command.entry) (D.content desk.old).files (Err refusal))) }
    ensures keeps { IsTrue D.tells → KeepsAll (D.content desk.old) (D.content desk.new) }
    ensures cause { HasStatusCause (D.faults desk.old) (D.faults desk.new) (status_in result) }
{
    match command {
        Command::Solve(names) => match alone(alloc, names.from) {
            Ok(control) => Ok(control),
            Err(_) => Err(Refusal::Memory),
        },
        Command::Combine(names) => read_control_file(alloc, &names, desk),
    }
}

// Whether a command writes the combined file.
fn writes_out(command: &Command<'_>) -> bool
    ensures { result ≡ writes_out (command_view command.now) }
{
    match command {
        Command::Solve(_) => false,
        Command::Combine(_) => true,
    }
}

// The texts of a control's files, with the combined file or without it.
fn texts_of<R: Threads + Sync, D: Desk>(
    rt: &R,
    alloc: Global,
    control: &Control,
    whole: bool,
    desk: &mut D,
) -> Result<Combined, Refusal>
    requires { IsValidControl (control_view control.now) }
    ensures texts { IsTrue D.tells → IfOk result (λ combined. IsTextsOf whole (control_view control.now) (D.content desk.old).files (texts_view combined)) }
    ensures refused { IsTrue D.tells → IfErr result (IfTold (λ refusal. Combines whole (control_view control.now) (D.content desk.old).files (Err refusal))) }
    ensures keeps { IsTrue D.tells → KeepsAll (D.content desk.old) (D.content desk.new) }
    ensures cause { HasStatusCause (D.faults desk.old) (D.faults desk.new) (status_in result) }
{
    let inputs = read_inputs(rt, alloc, control, desk)?;
    combine_core(rt, alloc, control, inputs, whole)
}

// The outputs of a command with these texts.
fn outputs_of<'a>(
    alloc: Global,
    command: Command<'a>,
    texts: Combined,
) -> Result<Vec<Output<'a>>, AllocError>
    ensures { IfOk result (λ outputs. map named_text outputs.items ≡ outputs_with (command_view command.entry) (texts_view texts)) }
{
    let mut outputs = Vec::new(alloc);
    match command {
        Command::Solve(names) => {
            outputs.push(Output {
                name: names.to,
                text: texts.report,
            })?;
        }
        Command::Combine(names) => {
            let out = Output {
                name: names.out,
                text: texts.out,
            };
            let report = Output {
                name: names.report,
                text: texts.report,
            };
            outputs.push(out)?;
            outputs.push(report)?;
        }
    }
    Ok(outputs)
}

// The outputs that are to be written, or why none is. Nothing is said or created.
pub(crate) fn decide<'a, R: Threads + Sync, D: Desk>(
    rt: &R,
    alloc: Global,
    words: &'a [String],
    desk: &mut D,
) -> Result<Vec<Output<'a>>, Refusal>
    ensures planned { IsTrue D.tells → IfOk result (λ outputs. IsPlanned (map string_bytes words.now) (D.content desk.old).files (map named_text outputs.items)) }
    ensures refused { IsTrue D.tells → IfErr result (IfTold (λ refusal. IsVerdict (map string_bytes words.now) (D.content desk.old).files (Err refusal))) }
    ensures keeps { IsTrue D.tells → KeepsAll (D.content desk.old) (D.content desk.new) }
    ensures cause { HasStatusCause (D.faults desk.old) (D.faults desk.new) (status_in result) }
{
    let command = read_words(words)?;
    let control = control_of(alloc, command, desk)?;
    let texts = texts_of(rt, alloc, &control, writes_out(&command), desk)?;
    let outputs = outputs_of(alloc, command, texts)?;
    Ok(outputs)
}
