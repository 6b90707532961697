// The top call.
ghost use Rattle.std.specs.Prelude.{◌≡◌, ◌≢◌, ◌≤◌, ◌⊎◌, ℕ, List, IsTrue, IfOk, OnErr, map, Ok, Err, string_bytes};
ghost use Rattle.desk_io.specs.declared.desk.DeskError.TheVariants.{Fault};
ghost use Rattle.desk_io.specs.Content.{IsFront};
ghost use Rattle.desk_io.specs.Desk.{HasCause, Rose, Says};
ghost use Rattle.desk_io.specs.Outputs.{NamedText};
ghost use Rattle.refusal_lines.specs.Refusals.{IsStatus, status_of, line_of};
ghost use Rattle.run_inputs.specs.Words.{NamesOutput};
ghost use Rattle.run_inputs.specs.Views.{HasStatusCause};
ghost use Rattle.combine_cli.specs.Verdict.{Outcome, IsVerdict};
ghost use Rattle.combine_cli.specs.Runs.{HasVerdict, Leaves, SaysPart, StoppedAt, StoppedThen, SaysMemory, SaysFault, Excuses, ReadsName};
ghost use Rattle.combine_cli.specs.Headline.{IsCertifiedRun};

use crate::decide::decide;
use desk_io::{Desk, DeskError, write_outputs};
use refusal_lines::{DESK_LINE, MEMORY_LINE, Refusal, line, status};
use std::alloc::Global;
use std::thread::Threads;

// Says the line of a refusal.
fn say_refusal<D: Desk>(alloc: Global, desk: &mut D, refusal: &Refusal) -> Result<(), DeskError>
    ensures content { IsTrue D.tells → Says (line_of refusal.now) (D.content desk.old) (D.content desk.new) result }
    ensures cause { HasCause (D.faults desk.old) (D.faults desk.new) result }
{
    match line(alloc, refusal) {
        Ok(line) => desk.say(&line),
        Err(_) => Err(DeskError::Memory),
    }
}

// Says the line of a refusal, where there is memory for it and the desk did not fail.
fn refuse<D: Desk>(alloc: Global, desk: &mut D, refusal: &Refusal) -> Result<u8, DeskError>
    ensures status { IfOk result (λ status. (status ≡ status_of refusal.now) × IsStatus status × (status ≢ 0) × (status ≢ 4) × (status ≢ 5)) }
    ensures cause { status_of refusal.now ≢ 5 → HasCause (D.faults desk.old) (D.faults desk.new) result }
    ensures fault { status_of refusal.now ≡ 5 → (result ≡ Err Fault) × (D.faults desk.new ≡ D.faults desk.old) }
    ensures done { IsTrue D.tells → IfOk result (λ status. Says (line_of refusal.now) (D.content desk.old) (D.content desk.new) (Ok tt)) }
    ensures part { IsTrue D.tells → SaysPart (line_of refusal.now) (D.content desk.old) (D.content desk.new) }
    ensures silent { IsTrue D.tells → (status_of refusal.now ≡ 4) ⊎ (status_of refusal.now ≡ 5) → D.content desk.new ≡ D.content desk.old }
{
    match status(refusal) {
        4 => Err(DeskError::Memory),
        5 => Err(DeskError::Fault),
        status => {
            say_refusal(alloc, desk, refusal)?;
            Ok(status)
        }
    }
}

// Does what was decided. An error says that it was cut short.
fn carry_out<R: Threads + Sync, D: Desk>(
    rt: &R,
    alloc: Global,
    words: &[String],
    desk: &mut D,
) -> Result<u8, DeskError>
    ensures status { IfOk result (λ status. IsStatus status × (status ≢ 4) × (status ≢ 5)) }
    ensures cause { HasCause (D.faults desk.old) (D.faults desk.new) result }
    ensures done { IsTrue D.tells → IfOk result (λ status. HasVerdict (map string_bytes words.now) (D.content desk.old).files (λ outcome. Leaves status outcome (D.content desk.old) (D.content desk.new))) }
    ensures cut { IsTrue D.tells → OnErr result ((outcome : Outcome) → IsVerdict (map string_bytes words.now) (D.content desk.old).files outcome → StoppedAt outcome (D.content desk.old) (D.content desk.new)) }
    ensures untouched { IsTrue D.tells → (name : List ℕ) → ¬ (NamesOutput (map string_bytes words.now) name) → (D.content desk.new).files name ≡ (D.content desk.old).files name }
    ensures said { IsTrue D.tells → IsFront (D.content desk.old).said (D.content desk.new).said }
    ensures certified { IsTrue D.tells → IfOk result (λ status. status ≡ 0 → IsCertifiedRun (map string_bytes words.now) (D.content desk.old).files (D.content desk.new).files) }
{
    match decide(rt, alloc, words, desk) {
        Ok(outputs) => {
            write_outputs(desk, &outputs)?;
            Ok(0)
        }
        Err(refusal) => refuse(alloc, desk, &refusal),
    }
}

// Says that the desk failed.
fn say_fault<D: Desk>(desk: &mut D) -> u8
    ensures status { result ≡ 5 }
    ensures content { IsTrue D.tells → SaysPart (line_of Refusal.Desk) (D.content desk.old) (D.content desk.new) }
    ensures later { D.faults desk.old ≤ D.faults desk.new }
{
    let _ = desk.say(DESK_LINE);
    5
}

// Says that memory is wanting, or that the desk failed in saying it.
fn say_memory<D: Desk>(desk: &mut D) -> u8
    ensures status { (result ≡ 4) ⊎ (result ≡ 5) }
    ensures content { IsTrue D.tells → Excuses result (D.content desk.old) (D.content desk.new) }
    ensures cause { HasStatusCause (D.faults desk.old) (D.faults desk.new) result }
{
    match desk.say(MEMORY_LINE) {
        Err(DeskError::Fault) => say_fault(desk),
        _ => 4,
    }
}

/// Runs the command that the words name, and answers its status.
///
/// The words are those of the command line after the program's name: `solve IN REPORT` or `combine CONTROL OUT REPORT`. The status
/// is 0 where the outputs were written; 2 where the words are no command; 3 where the control file or a SINEX file isn't there, is
/// too long or has a fault, asks for what isn't built, or lacks normal equations by name; 6 where a number passes its range, or the
/// rules don't certify the stack; 4 for want of memory; 5 where the desk's count of faults rose. Before 2, 3 and 6 the refusal's
/// line was said whole and no file was created; all that is read is read to its end before the first output is created, and OUT is
/// written before REPORT.
pub fn run<R: Threads + Sync, D: Desk>(rt: &R, alloc: Global, words: &[String], desk: &mut D) -> u8
    ensures status { IsStatus result }

    // The count of faults rose before 5, and is as before with 0, 2, 3 and 6.
    ensures cause { HasStatusCause (D.faults desk.old) (D.faults desk.new) result }

    // Whatever the status, each file but the outputs that the words name is as before, those that are read among them, and
    // what was said before still stands before all that the run said.
    ensures untouched { IsTrue D.tells → (name : List ℕ) → ¬ (NamesOutput (map string_bytes words.now) name)
        → (D.content desk.new).files name ≡ (D.content desk.old).files name }
    ensures input { IsTrue D.tells → (name : List ℕ) → ReadsName (map string_bytes words.now) (D.content desk.old).files name
        → (D.content desk.new).files name ≡ (D.content desk.old).files name }
    ensures said { IsTrue D.tells → IsFront (D.content desk.old).said (D.content desk.new).said }

    // Over a desk that tells its files the words and the files have one verdict, and the run leaves what it says.
    ensures verdict { IsTrue D.tells → result ≢ 4 → result ≢ 5
        → HasVerdict (map string_bytes words.now) (D.content desk.old).files (λ outcome. Leaves result outcome (D.content desk.old) (D.content desk.new)) }
    ensures alone { (one other : Outcome) → IsVerdict (map string_bytes words.now) (D.content desk.old).files one
        → IsVerdict (map string_bytes words.now) (D.content desk.old).files other → one ≡ other }

    // Where the verdict is outputs and no fault comes, they are written, or memory was wanting.
    ensures complete { IsTrue D.tells → (outputs : List NamedText) → IsVerdict (map string_bytes words.now) (D.content desk.old).files (Ok outputs)
        → ¬ (Rose (D.faults desk.old) (D.faults desk.new)) → (result ≡ 0) ⊎ (result ≡ 4) }

    // What stands after want of memory or a fault, and what is said then.
    ensures stopped { IsTrue D.tells → (result ≡ 4) ⊎ (result ≡ 5) → (outcome : Outcome)
        → IsVerdict (map string_bytes words.now) (D.content desk.old).files outcome
        → StoppedThen outcome (Excuses result) (D.content desk.old) (D.content desk.new) }

    // The inputs' normal equations have an exact system, the sum by name of one of each file, and over the names of the stack each
    // one lies in its intervals. Each system in them has a solution, all its solutions are equal and lie between the printed
    // bounds, and the printed estimates leave at most the printed residual in every row.
    ensures certified { IsTrue D.tells → result ≡ 0 → IsCertifiedRun (map string_bytes words.now) (D.content desk.old).files (D.content desk.new).files }
{
    match carry_out(rt, alloc, words, desk) {
        Ok(status) => status,
        Err(DeskError::Fault) => say_fault(desk),
        Err(DeskError::Memory) => say_memory(desk),
    }
}
