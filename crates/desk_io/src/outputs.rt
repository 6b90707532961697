// Several files, written one after another.
ghost use Rattle.std.specs.Prelude.{map, IsTrue};
ghost use Rattle.desk_io.specs.Desk.{HasCause};
ghost use Rattle.desk_io.specs.Outputs.{named_text, Writing, NamesDiffer, Stands};

use crate::{Desk, DeskError, write_file};

/// A text that is to be written to the file of a name.
#[derive(Drop)]
pub struct Output<'a> {
    /// The file's name.
    pub name: &'a str,
    /// What the file is to hold.
    pub text: Vec<u8>,
}

// Writes the outputs one after another.
fn write_each<D: Desk>(desk: &mut D, outputs: &[Output<'_>]) -> Result<(), DeskError>
    ensures content { IsTrue D.tells → Writing (map named_text outputs.now) (D.content desk.old) (D.content desk.new) result }
    ensures cause { HasCause (D.faults desk.old) (D.faults desk.new) result }
{
    match outputs {
        [] => Ok(()),
        [first, later @ ..] => {
            write_file(desk, first.name, &first.text)?;
            write_each(desk, later)
        }
    }
}

/// Writes the outputs one after another, each whole and finished before the next is created. It stops at the
/// first that the desk refuses.
pub fn write_outputs<D: Desk>(desk: &mut D, outputs: &[Output<'_>]) -> Result<(), DeskError>
    ensures content { IsTrue D.tells → Writing (map named_text outputs.now) (D.content desk.old) (D.content desk.new) result }
    ensures cause { HasCause (D.faults desk.old) (D.faults desk.new) result }

    // Where their names differ, this tells what each output's file holds at the end.
    ensures stands { IsTrue D.tells → NamesDiffer (map named_text outputs.now)
        → Stands (map named_text outputs.now) (D.content desk.old) (D.content desk.new) result }
{
    write_each(desk, outputs)
}
