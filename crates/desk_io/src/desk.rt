// A desk as its callers see it: files by name, what is said, and a count of faults.
ghost use Rattle.std.specs.Prelude.{◌≡◌, ◌≤◌, Bool, true, false, List, ℕ, length, IsTrue, IfOk, MatchResult};
ghost use Rattle.desk_io.specs.Content.{Content, Facts, after_open, after_read, with_writing};
ghost use Rattle.desk_io.specs.Desk.{HasCause, Opens, Reads, Creates, Writes, Finishes, Says};

use thiserror::Error;

/// Why a desk refused a call.
#[derive(Clone, Copy, Debug, PartialEq, Eq, Hash, Error)]
pub enum DeskError {
    /// The outside failed, and the desk counted a fault.
    #[error("the desk failed")]
    Fault,
    /// There was no memory for the call.
    #[error("out of memory")]
    Memory,
}

/// Files and lines, as the program sees them. A desk counts its faults, and answers `Fault` only where that
/// count rose and `Ok` only where it didn't. A refused call leaves what the desk tells of itself (`facts`) as
/// it was.
pub trait Desk {
    /// Whether a desk of this type tells its content.
    ghost tells: { Bool };

    /// What it holds, which says something only where it tells.
    ghost content: { Self → Content };

    /// What it tells in any case.
    ghost facts: { Self → Facts };

    /// How often it has failed.
    ghost faults: { Self → ℕ };

    /// Opens a file to be read from its start, or answers false exactly where there is none of that name.
    fn open(&mut self, name: &str) -> Result<bool, DeskError>
        ensures facts { MatchResult result (λ found. facts self.new ≡ after_open (facts self.old) found) (λ _. facts self.new ≡ facts self.old) }
        ensures content { IsTrue tells → Opens name.now (content self.old) (content self.new) result }
        ensures cause { HasCause (faults self.old) (faults self.new) result };

    /// Takes the next bytes of the open file and answers how many. An answer of 0 for a nonempty buffer is its
    /// end. After a refusal the buffer may hold any bytes.
    fn read(&mut self, into: &mut [u8]) -> Result<usize, DeskError>
        requires { IsTrue (facts self.old).opened }
        ensures bound { IfOk result (λ count. count ≤ length into.new) }
        ensures facts { MatchResult result (λ count. facts self.new ≡ after_read (facts self.old) count) (λ _. facts self.new ≡ facts self.old) }
        ensures content { IsTrue tells → Reads into.new (content self.old) (content self.new) result }
        ensures cause { HasCause (faults self.old) (faults self.new) result };

    /// Makes the name an empty file, which the next writes go to. A file that was there is replaced.
    fn create(&mut self, name: &str) -> Result<(), DeskError>
        ensures facts { MatchResult result (λ _. facts self.new ≡ with_writing (facts self.old) true) (λ _. facts self.new ≡ facts self.old) }
        ensures content { IsTrue tells → Creates name.now (content self.old) (content self.new) result }
        ensures cause { HasCause (faults self.old) (faults self.new) result };

    /// Appends all of the bytes to the file that was created last. After a refusal a prefix of them was appended.
    fn write(&mut self, bytes: &[u8]) -> Result<(), DeskError>
        requires { IsTrue (facts self.old).writing }
        ensures facts { facts self.new ≡ facts self.old }
        ensures content { IsTrue tells → Writes bytes.now (content self.old) (content self.new) result }
        ensures cause { HasCause (faults self.old) (faults self.new) result };

    /// Ends the file that was created last.
    fn finish(&mut self) -> Result<(), DeskError>
        requires { IsTrue (facts self.old).writing }
        ensures facts { MatchResult result (λ _. facts self.new ≡ with_writing (facts self.old) false) (λ _. facts self.new ≡ facts self.old) }
        ensures content { IsTrue tells → Finishes (content self.old) (content self.new) result }
        ensures cause { HasCause (faults self.old) (faults self.new) result };

    /// Says all of the bytes, after those said before. After a refusal a prefix of them was said.
    fn say(&mut self, bytes: &[u8]) -> Result<(), DeskError>
        ensures facts { facts self.new ≡ facts self.old }
        ensures content { IsTrue tells → Says bytes.now (content self.old) (content self.new) result }
        ensures cause { HasCause (faults self.old) (faults self.new) result };
}
