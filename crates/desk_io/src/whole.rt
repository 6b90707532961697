// Whole files over any desk.
ghost use Rattle.std.specs.Prelude.{◌≡◌, ◌⊎◌, ◌≤◌, ◌<◌, ◌^◌, IsTrue, IsErrOf, OnOk, OnErr, IfOk, false, true, length};
ghost use Rattle.desk_io.specs.Content.{KeepsAll, after_open, with_writing};
ghost use Rattle.desk_io.specs.Desk.{HasCause};
ghost use Rattle.desk_io.specs.Whole.{reading, refusal, Answers, HasReadCause, WritesFile};
ghost use Rattle.desk_io.specs.declared.whole.ReadError.TheVariants.{Memory};

use crate::{Desk, DeskError};
use std::alloc::{AllocError, Global};
use thiserror::Error;

// The most bytes of one read or write.
const PIECE: usize = 65536;

/// Why a file wasn't read.
#[derive(Clone, Copy, Debug, PartialEq, Eq, Hash, Error)]
pub enum ReadError {
    /// There is no file of that name.
    #[error("there is no such file")]
    NoFile,
    /// The file has more bytes than the limit.
    #[error("the file is too long")]
    TooLong,
    /// The desk failed, and its count of faults rose.
    #[error("the desk failed")]
    Fault,
    /// There was no memory for the file.
    #[error("out of memory")]
    Memory,
}

impl From<DeskError> for ReadError {
    ghost from_gives = { λ e r. r ≡ refusal e };

    fn from(e: DeskError) -> ReadError {
        match e {
            DeskError::Fault => ReadError::Fault,
            DeskError::Memory => ReadError::Memory,
        }
    }
}

impl From<AllocError> for ReadError {
    ghost from_gives = { λ _ r. r ≡ Memory };

    fn from(_e: AllocError) -> ReadError {
        ReadError::Memory
    }
}

// A buffer of that many zeros. It stands alone, so that no proof counts out a literal size.
fn buffer(alloc: Global, size: usize) -> Result<Vec<u8>, AllocError>
    ensures { IfOk result (λ piece. length piece.items ≡ size) }
{
    vec![in alloc; 0u8; size]
}

/// Reads a whole file of at most `limit` bytes, in pieces of at most 65,536. Each read but the last takes at
/// least one byte, so with the opening there are at most `limit + 2` calls of the desk. `NoFile` comes where
/// open answered false, and `TooLong` where more than `limit` bytes were taken.
pub fn read_all<D: Desk>(
    alloc: Global,
    desk: &mut D,
    name: &str,
    limit: usize,
) -> Result<Vec<u8>, ReadError>
    requires { limit ≤ 2 ^ 27 }

    // Where the desk tells, this is its file of that name, or why it isn't.
    ensures answer { IsTrue D.tells → Answers result (reading ((D.content desk.old).files name.now) limit) }
    ensures keeps { IsTrue D.tells → KeepsAll (D.content desk.old) (D.content desk.new) }

    // Over any desk each refusal has its cause, and a text is as long as what was taken.
    ensures taken { IfOk result (λ text. D.facts desk.new ≡ record (after_open (D.facts desk.old) true) { taken = length text.items }) }
    ensures within { IfOk result (λ text. length text.items ≤ limit) }
    ensures no_file { IsErrOf result ReadError.NoFile → D.facts desk.new ≡ after_open (D.facts desk.old) false }
    ensures too_long { IsErrOf result ReadError.TooLong → limit < (D.facts desk.new).taken }
    ensures cause { HasReadCause (D.faults desk.old) (D.faults desk.new) result }
    ensures writing { (D.facts desk.new).writing ≡ (D.facts desk.old).writing }
{
    let mut piece = buffer(alloc, PIECE)?;
    if !desk.open(name)? {
        return Err(ReadError::NoFile);
    }
    let mut text = Vec::new(alloc);
    for turn in 0..limit + 1 {
        let count = desk.read(&mut piece)?;
        if count == 0 {
            return Ok(text);
        }
        if count > limit - text.len() {
            return Err(ReadError::TooLong);
        }
        text.extend_from_slice(&piece[..count])?;
    }
    unreachable!()
}

/// Writes a whole file, in pieces of at most 65,536 bytes, and ends it. After a refusal the file, if it was
/// created, holds a prefix of the text.
pub fn write_file<D: Desk>(desk: &mut D, name: &str, text: &[u8]) -> Result<(), DeskError>
    ensures content { IsTrue D.tells → WritesFile name.now text.now (D.content desk.old) (D.content desk.new) result }
    ensures cause { HasCause (D.faults desk.old) (D.faults desk.new) result }
    ensures facts { OnOk result (D.facts desk.new ≡ with_writing (D.facts desk.old) false) }
    ensures stopped { OnErr result ((D.facts desk.new ≡ D.facts desk.old) ⊎ (D.facts desk.new ≡ with_writing (D.facts desk.old) true)) }
{
    desk.create(name)?;
    let mut at = 0;
    while at < text.len() {
        let end = at + (text.len() - at).min(PIECE);
        desk.write(&text[at..end])?;
        at = end;
    }
    desk.finish()
}
