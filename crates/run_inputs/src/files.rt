//! Whole files.

ghost use Rattle.std.specs.Prelude.{◌≡◌, ◌≢◌, ◌≤◌, ◌^◌, length, IsTrue, IfOk, IfErr, Ok, Err};
ghost use Rattle.desk_io.specs.Content.{KeepsAll};
ghost use Rattle.snx_blocks.specs.Documents.{IsValid};
ghost use Rattle.snx_blocks.specs.Views.{doc_view};
ghost use Rattle.refusal_lines.specs.Refusals.{status_of};
ghost use Rattle.run_inputs.specs.Files.{ReadsFile, ReadsText, file_limit};
ghost use Rattle.run_inputs.specs.Views.{status_in, IfTold, HasStatusCause};

use desk_io::{Desk, ReadError, read_all};
use refusal_lines::{Name, Refusal};
use snx_blocks::{Doc, DocError, read_doc};
use std::alloc::Global;
use std::thread::Threads;

/// A file's name, for its refusal.
pub fn named(alloc: Global, from: &str) -> Result<Name, Refusal>
    ensures name { IfOk result (λ name. name ≡ from.now) }
    ensures memory { IfErr result (λ refusal. refusal ≡ Refusal.Memory) }
{
    match Name::copied(alloc, from) {
        Ok(name) => Ok(name),
        Err(_) => Err(Refusal::Memory),
    }
}

/// The bytes of the file of that name, of at most `limit`.
///
/// # Errors
///
/// NoFile, TooLong; want of memory, or a fault of the desk.
pub fn read_file<D: Desk>(
    alloc: Global,
    from: &str,
    limit: usize,
    desk: &mut D,
) -> Result<Vec<u8>, Refusal>
    requires { limit ≤ 2 ^ 27 }
    ensures text { IsTrue D.tells → IfOk result (λ text. ReadsFile limit from.now ((D.content desk.old).files from.now) (Ok text.items)) }
    ensures short { IfOk result (λ text. length text.items ≤ limit) }
    ensures refused { IsTrue D.tells → IfErr result (IfTold (λ refusal. ReadsFile limit from.now ((D.content desk.old).files from.now) (Err refusal))) }
    ensures keeps { IsTrue D.tells → KeepsAll (D.content desk.old) (D.content desk.new) }
    ensures cause { HasStatusCause (D.faults desk.old) (D.faults desk.new) (status_in result) }
{
    match read_all(alloc, desk, from, limit) {
        Ok(text) => Ok(text),
        Err(ReadError::NoFile) => Err(Refusal::NoFile {
            name: named(alloc, from)?,
        }),
        Err(ReadError::TooLong) => Err(Refusal::TooLong {
            name: named(alloc, from)?,
        }),
        Err(ReadError::Fault) => Err(Refusal::Desk),
        Err(ReadError::Memory) => Err(Refusal::Memory),
    }
}

/// The document that the text of that file is.
///
/// # Errors
///
/// Line with the first bad line; want of memory.
pub fn read_text<R: Threads + Sync>(
    rt: &R,
    alloc: Global,
    from: &str,
    text: &[u8],
) -> Result<Doc, Refusal>
    requires { length text.now ≤ file_limit }
    ensures doc { IfOk result (λ doc. ReadsText from.now text.now (Ok (doc_view doc))) }
    ensures valid { IfOk result (λ doc. IsValid (doc_view doc)) }
    ensures refused { IfErr result (IfTold (λ refusal. ReadsText from.now text.now (Err refusal))) }
    ensures no_fault { IfErr result (λ refusal. status_of refusal ≢ 5) }
{
    match read_doc(rt, alloc, text) {
        Ok(doc) => Ok(doc),
        Err(DocError::Line(fault)) => Err(Refusal::Line {
            name: named(alloc, from)?,
            fault,
        }),
        Err(DocError::Memory) => Err(Refusal::Memory),
    }
}
