//! The words of a command.

ghost use Rattle.std.specs.Prelude.{◌≡◌, ◌&&◌, not, map, IfOk, IfErr, IfSome, IfNone, Ok, Err, string_bytes, codes};
ghost use Rattle.std.specs.Str.{bytes_eq};
ghost use Rattle.run_inputs.specs.Words.{ReadsWords, SolvedFiles, CombinedFiles, AreSolve, AreCombine};
ghost use Rattle.run_inputs.specs.Views.{command_view, solved_files, combined_files};

use refusal_lines::Refusal;

/// The files that `solve` names: the one that is read, and the one that is written.
#[derive(Clone, Copy)]
pub struct SolveNames<'a> {
    pub from: &'a str,
    pub to: &'a str,
}

/// The files that `combine` names: the control file, which is read, and the two that are written.
#[derive(Clone, Copy)]
pub struct CombineNames<'a> {
    pub control: &'a str,
    pub out: &'a str,
    pub report: &'a str,
}

/// What the words of a command say.
#[derive(Clone, Copy)]
pub enum Command<'a> {
    /// `solve IN REPORT`
    Solve(SolveNames<'a>),
    /// `combine CONTROL OUT REPORT`
    Combine(CombineNames<'a>),
}

// Whether the words are `solve` and two different names.
fn is_solve(command: &str, from: &str, to: &str) -> bool
    ensures { result ≡ (bytes_eq command.now (codes "solve") && not (bytes_eq from.now to.now)) }
{
    command == "solve" && from != to
}

// Whether three names differ.
fn differ(one: &str, other: &str, last: &str) -> bool
    ensures { result ≡ (not (bytes_eq one.now other.now) && (not (bytes_eq one.now last.now) && not (bytes_eq other.now last.now))) }
{
    one != other && (one != last && other != last)
}

// Whether the words are `combine` and three different names.
fn is_combine(command: &str, control: &str, out: &str, report: &str) -> bool
    ensures { result ≡ (bytes_eq command.now (codes "combine") && (not (bytes_eq control.now out.now) && (not (bytes_eq control.now report.now) && not (bytes_eq out.now report.now)))) }
{
    command == "combine" && differ(control, out, report)
}

// The names of `solve IN REPORT`.
fn solve_in(words: &[String]) -> Option<SolveNames<'_>>
    ensures some { IfSome result (λ names. AreSolve (map string_bytes words.now) (solved_files names)) }
    ensures none { IfNone result ((names : SolvedFiles) → ¬ (AreSolve (map string_bytes words.now) names)) }
{
    let [command, from, to] = words else {
        return None;
    };
    let (from, to) = (from.as_str(), to.as_str());
    if is_solve(command.as_str(), from, to) {
        Some(SolveNames { from, to })
    } else {
        None
    }
}

// The names of `combine CONTROL OUT REPORT`.
fn combine_in(words: &[String]) -> Option<CombineNames<'_>>
    ensures some { IfSome result (λ names. AreCombine (map string_bytes words.now) (combined_files names)) }
    ensures none { IfNone result ((names : CombinedFiles) → ¬ (AreCombine (map string_bytes words.now) names)) }
{
    let [command, control, out, report] = words else {
        return None;
    };
    let (control, out, report) = (control.as_str(), out.as_str(), report.as_str());
    if is_combine(command.as_str(), control, out, report) {
        Some(CombineNames {
            control,
            out,
            report,
        })
    } else {
        None
    }
}

/// The command of some words, or `Words` where they are none.
pub fn read_words(words: &[String]) -> Result<Command<'_>, Refusal>
    ensures command { IfOk result (λ command. ReadsWords (map string_bytes words.now) (Ok (command_view command))) }
    ensures refused { IfErr result (λ refusal. ReadsWords (map string_bytes words.now) (Err refusal)) }
{
    if let Some(names) = solve_in(words) {
        return Ok(Command::Solve(names));
    }
    match combine_in(words) {
        Some(names) => Ok(Command::Combine(names)),
        None => Err(Refusal::Words),
    }
}
