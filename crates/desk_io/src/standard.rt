// The desk of the system: its files, standard output and standard error.
ghost use Rattle.std.specs.Prelude.{◌≡◌, ◌+◌, ◌-◌, ◌^◌, min, if◌then◌else◌, is_ok, IfOk, IsNone};
ghost use Rattle.desk_io.specs.Desk.{HasCause};

use crate::{Desk, DeskError};
use std::io::{ErrorKind, Read, Write};
use std::rt::Files;
use std::{fs, io, str};

const TO_STANDARD_ERROR: &[u8] = b"snxcomb: ";

/// The system, as a desk that tells no content. Each read is one read of the system, and each write a loop
/// over its writes, with no buffer between. Said bytes that begin with `snxcomb: ` go to standard error, and
/// all others to standard output. `open` answers false where the system says that the name isn't there, and
/// each other error counts as a fault, as do a write that takes nothing and bytes for standard error that
/// aren't UTF-8.
pub struct StdDesk<'a, R: Files + Print + Eprint> {
    rt: &'a R,
    reading: Option<R::File>,
    taken: u64,
    writing: Option<R::File>,
    faults: u64,
}

impl<R: Files + Print + Eprint> Drop for StdDesk<'_, R> {
    fn drop(self) {
        let StdDesk {
            rt: _,
            reading: _,
            taken: _,
            writing: _,
            faults: _,
        } = self;
    }
}

impl<'a, R: Files + Print + Eprint> StdDesk<'a, R> {
    /// A desk on which nothing was opened or created, and which has counted no fault.
    pub fn new(rt: &'a R) -> StdDesk<'a, R>
        ensures reading { IsNone result.reading }
        ensures taken { result.taken ≡ 0 }
        ensures writing { IsNone result.writing }
        ensures faults { result.faults ≡ 0 }
    {
        StdDesk {
            rt,
            reading: None,
            taken: 0,
            writing: None,
            faults: 0,
        }
    }
}

// The system's answer, with an error counted as a fault.
fn counted<T: Drop>(answer: io::Result<T>, faults: &mut u64) -> Result<T, DeskError>
    ensures value { IfOk result (λ value. answer ≡ Ok value) }
    ensures cause { HasCause faults.old faults.new result }
    ensures count { faults.new ≡ (if is_ok answer then faults.old else min (faults.old + 1) (2 ^ 64 - 1)) }
{
    match answer {
        Ok(value) => Ok(value),
        Err(_) => {
            *faults = faults.saturating_add(1);
            Err(DeskError::Fault)
        }
    }
}

impl<R: Files + Print + Eprint> Desk for StdDesk<'_, R> {
    ghost use Rattle.std.specs.Prelude.{false, is_some};
    ghost use Rattle.desk_io.specs.Content.{no_content};

    ghost tells = { false };

    ghost content = { λ _. no_content };

    ghost facts = { λ d. record { opened = is_some d.reading; taken = d.taken; writing = is_some d.writing } };

    ghost faults = { λ d. d.faults };

    fn open(&mut self, name: &str) -> Result<bool, DeskError> {
        let file = match fs::open(self.rt, name) {
            Err(e) if e.kind() == ErrorKind::NotFound => None,
            opened => Some(counted(opened, &mut self.faults)?),
        };
        let found = file.is_some();
        self.reading = file;
        self.taken = 0;
        Ok(found)
    }

    fn read(&mut self, into: &mut [u8]) -> Result<usize, DeskError> {
        let Some(file) = &mut self.reading else {
            unreachable!()
        };
        let count = counted(file.read(into), &mut self.faults)?;
        self.taken = self.taken.saturating_add(count as u64);
        Ok(count)
    }

    fn create(&mut self, name: &str) -> Result<(), DeskError> {
        let file = counted(fs::create(self.rt, name), &mut self.faults)?;
        self.writing = Some(file);
        Ok(())
    }

    fn write(&mut self, bytes: &[u8]) -> Result<(), DeskError> {
        let Some(file) = &mut self.writing else {
            unreachable!()
        };
        counted(file.write_all(bytes), &mut self.faults)
    }

    fn finish(&mut self) -> Result<(), DeskError> {
        let Some(file) = &mut self.writing else {
            unreachable!()
        };
        counted(file.flush(), &mut self.faults)?;
        self.writing = None;
        Ok(())
    }

    fn say(&mut self, bytes: &[u8]) -> Result<(), DeskError> {
        let said = if bytes.starts_with(TO_STANDARD_ERROR) {
            match str::from_utf8(bytes) {
                Ok(text) => self.rt.eprint(text),
                Err(_) => Err(io::Error::from(ErrorKind::InvalidData)),
            }
        } else {
            self.rt.write_all(bytes)
        };
        counted(said, &mut self.faults)
    }
}
