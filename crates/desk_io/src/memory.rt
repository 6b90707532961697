// A desk in memory. It tells everything, and the calls of the listed numbers fail.
ghost use Rattle.std.specs.Prelude.{◌≡◌, ◌≢◌, ◌++◌, ◌+◌, ◌-◌, ◌^◌, ◌<◌, ◌≤◌, ℕ, [], true, false, List, length, take, drop, min, IsTrue, IfOk, OnOk, OnErr, MatchResult, IsErrOf, Some, option_copied, string_bytes, if◌then◌else◌};
ghost use Rattle.std.specs.Option.{option_map};
ghost use Rattle.desk_io.specs.Content.{File, IsFront, SameBut, no_content, no_facts, after_open, after_read, with_writing};
ghost use Rattle.desk_io.specs.Desk.{HasCause, Opens, Reads, Creates, Writes, Finishes, Says, Rose};
ghost use Rattle.desk_io.specs.MemDesk.{file_at, mem_content, mem_facts, call_fails, half, FailsWhole, FailsHalf, WritesHalf};

use crate::{Desk, DeskError};
use std::alloc::{AllocError, Global};
use std::collections::BTreeMap;

#[derive(Drop)]
struct MemFile {
    bytes: Vec<u8>,
    finished: bool,
}

/// A desk in memory, which tells everything. Its calls are numbered from 1, and those of the listed numbers
/// fail: a failing `write` or `say` appends the first half of its bytes, rounded down, and any other failing
/// call changes nothing but the counts. With an empty list no call fails, and the count of faults stays 0.
#[derive(Drop)]
pub struct MemDesk {
    alloc: Global,
    fail: Vec<u32>,
    calls: u32,
    faults: u64,
    files: BTreeMap<String, MemFile>,
    said: Vec<u8>,
    reading: Vec<u8>,
    at: usize,
    opened: bool,
    taken: u64,
    current: String,
    writing: bool,
}

impl MemDesk {
    /// A desk without files, on which the calls of the numbers in `fail` fail.
    pub fn new(alloc: Global, fail: Vec<u32>) -> MemDesk
        ensures content { mem_content result ≡ no_content }
        ensures facts { mem_facts result ≡ no_facts }
        ensures faults { result.faults ≡ 0 }
        ensures calls { result.calls ≡ 0 }
        ensures fail { result.fail ≡ fail }
    {
        MemDesk {
            alloc,
            fail,
            calls: 0,
            faults: 0,
            files: BTreeMap::new(alloc),
            said: Vec::new(alloc),
            reading: Vec::new(alloc),
            at: 0,
            opened: false,
            taken: 0,
            current: String::new(alloc),
            writing: false,
        }
    }

    /// Puts a finished file on the desk, in place of one of that name. It isn't a numbered call.
    pub fn add_file(&mut self, name: &str, bytes: &[u8]) -> Result<(), AllocError>
        ensures file { OnOk result ((mem_content self.new).files name.now ≡ Some (record { bytes = bytes.now; finished = true })) }
        ensures others { SameBut name.now (mem_content self.old) (mem_content self.new) }
        ensures refused { OnErr result (mem_content self.new ≡ mem_content self.old) }
        ensures rest { self.new ≡ record self.old { files = self.new.files } }
    {
        let key = String::from_str(self.alloc, name)?;
        let bytes = bytes.to_vec(self.alloc)?;
        put_file(&mut self.files, key, bytes, true)
    }

    /// The bytes of the file of that name, if there is one.
    pub fn file(&self, name: &str) -> Option<&[u8]>
        ensures { option_copied result ≡ option_map (λ file. file.bytes) ((mem_content self.now).files name.now) }
    {
        match self.files.get(name) {
            Some(file) => Some(file.bytes.as_slice()),
            None => None,
        }
    }

    /// All that was said, in order.
    pub fn said(&self) -> &[u8]
        ensures { result.now ≡ (mem_content self.now).said }
    {
        self.said.as_slice()
    }

    /// How many calls have failed, up to 2^64 - 1.
    pub fn faults(&self) -> u64
        ensures { result ≡ self.now.faults }
    {
        self.faults
    }
}

// Counts a call, and says whether it fails.
fn counts_fault(fail: &[u32], calls: &mut u32, faults: &mut u64) -> bool
    ensures fails { result ≡ call_fails fail.now calls.old }
    ensures calls { calls.new ≡ min (calls.old + 1) (2 ^ 32 - 1) }
    ensures faults { faults.new ≡ (if result then min (faults.old + 1) (2 ^ 64 - 1) else faults.old) }
    ensures later { faults.old ≤ faults.new }
    ensures rose { result ≡ true → Rose faults.old faults.new }
    ensures faultless { fail.now ≡ [] → faults.new ≡ faults.old }
{
    if *calls == u32::MAX {
        return false;
    }
    *calls += 1;
    if fail.contains(calls) {
        *faults = faults.saturating_add(1);
        return true;
    }
    false
}

// All of the bytes, or the first half of them.
fn part_of(bytes: &[u8], is_cut: bool) -> &[u8]
    ensures part { result.now ≡ (if is_cut then half bytes.now else bytes.now) }
    ensures whole { is_cut ≡ false → result.now ≡ bytes.now }
    ensures front { IsFront result.now bytes.now }
{
    if is_cut {
        return &bytes[..bytes.len() / 2];
    }
    bytes
}

// Copies what fits.
fn take_from(left: &[u8], into: &mut [u8]) -> usize
    ensures within { result ≤ length into.new }
    ensures left { result ≤ length left.now }
    ensures bytes { left.now ≡ take result into.new ++ drop result left.now }
    ensures end { result ≡ 0 → 0 < length into.new → left.now ≡ [] }
{
    let count = into.len().min(left.len());
    into[..count].copy_from_slice(&left[..count]);
    count
}

// Makes the name a file of these bytes.
#[tactic(auto, using(std::proofs::lemmas::Map::Text::text_keys))]
fn put_file(
    files: &mut BTreeMap<String, MemFile>,
    key: String,
    bytes: Vec<u8>,
    finished: bool,
) -> Result<(), AllocError>
    ensures file { OnOk result (file_at files.new (string_bytes key) ≡ Some (record { bytes = bytes.items; finished = finished })) }
    ensures others { (other : List ℕ) → other ≢ string_bytes key → file_at files.new other ≡ file_at files.old other }
    ensures err { OnErr result (file_at files.new ≡ file_at files.old) }
{
    files.insert(key, MemFile { bytes, finished })?;
    Ok(())
}

// Appends to the file of that name, if there is one.
#[tactic(auto, using(std::proofs::lemmas::Map::Text::text_keys))]
fn append_to(
    files: &mut BTreeMap<String, MemFile>,
    name: &str,
    part: &[u8],
) -> Result<(), AllocError>
    ensures file { OnOk result ((file : File) → file_at files.old name.now ≡ Some file → file_at files.new name.now ≡ Some (record { bytes = file.bytes ++ part.now; finished = file.finished })) }
    ensures others { (other : List ℕ) → other ≢ name.now → file_at files.new other ≡ file_at files.old other }
    ensures err { OnErr result (file_at files.new name.now ≡ file_at files.old name.now) }
{
    if let Some(file) = files.get_mut(name) {
        file.bytes.extend_from_slice(part)?;
    }
    Ok(())
}

// Ends the file of that name, if there is one.
#[tactic(auto, using(std::proofs::lemmas::Map::Text::text_keys))]
fn end_file(files: &mut BTreeMap<String, MemFile>, name: &str)
    ensures file { (file : File) → file_at files.old name.now ≡ Some file → file_at files.new name.now ≡ Some (record { bytes = file.bytes; finished = true }) }
    ensures others { (other : List ℕ) → other ≢ name.now → file_at files.new other ≡ file_at files.old other }
{
    if let Some(file) = files.get_mut(name) {
        file.finished = true;
    }
}

impl Desk for MemDesk {
    ghost use Rattle.desk_io.specs.MemDesk.{mem_content, mem_facts};

    ghost tells = { true };

    ghost content = { mem_content };

    ghost facts = { mem_facts };

    ghost faults = { λ d. d.faults };

    fn open(&mut self, name: &str) -> Result<bool, DeskError>
        ensures facts { MatchResult result (λ found. mem_facts self.new ≡ after_open (mem_facts self.old) found) (λ _. mem_facts self.new ≡ mem_facts self.old) }
        ensures content { Opens name.now (mem_content self.old) (mem_content self.new) result }
        ensures cause { HasCause self.old.faults self.new.faults result }
        ensures number { FailsWhole self.old self.new result }
    {
        if counts_fault(&self.fail, &mut self.calls, &mut self.faults) {
            return Err(DeskError::Fault);
        }
        let Some(file) = self.files.get(name) else {
            self.opened = false;
            self.taken = 0;
            return Ok(false);
        };
        match file.bytes.to_vec(self.alloc) {
            Ok(bytes) => {
                self.reading = bytes;
                self.at = 0;
                self.opened = true;
                self.taken = 0;
                Ok(true)
            }
            Err(_) => Err(DeskError::Memory),
        }
    }

    fn read(&mut self, into: &mut [u8]) -> Result<usize, DeskError>
        ensures bound { IfOk result (λ count. count ≤ length into.new) }
        ensures facts { MatchResult result (λ count. mem_facts self.new ≡ after_read (mem_facts self.old) count) (λ _. mem_facts self.new ≡ mem_facts self.old) }
        ensures content { Reads into.new (mem_content self.old) (mem_content self.new) result }
        ensures cause { HasCause self.old.faults self.new.faults result }
        ensures number { FailsWhole self.old self.new result }
    {
        if counts_fault(&self.fail, &mut self.calls, &mut self.faults) {
            return Err(DeskError::Fault);
        }
        if self.reading.len() < self.at {
            return Ok(0);
        }
        let count = take_from(&self.reading[self.at..], into);
        self.at += count;
        self.taken = self.taken.saturating_add(count as u64);
        Ok(count)
    }

    fn create(&mut self, name: &str) -> Result<(), DeskError>
        ensures facts { MatchResult result (λ _. mem_facts self.new ≡ with_writing (mem_facts self.old) true) (λ _. mem_facts self.new ≡ mem_facts self.old) }
        ensures content { Creates name.now (mem_content self.old) (mem_content self.new) result }
        ensures cause { HasCause self.old.faults self.new.faults result }
        ensures number { FailsWhole self.old self.new result }
    {
        if counts_fault(&self.fail, &mut self.calls, &mut self.faults) {
            return Err(DeskError::Fault);
        }
        let (Ok(key), Ok(current)) = (
            String::from_str(self.alloc, name),
            String::from_str(self.alloc, name),
        ) else {
            return Err(DeskError::Memory);
        };
        if put_file(&mut self.files, key, Vec::new(self.alloc), false).is_err() {
            return Err(DeskError::Memory);
        }
        self.current = current;
        self.writing = true;
        Ok(())
    }

    fn write(&mut self, bytes: &[u8]) -> Result<(), DeskError>
        ensures facts { mem_facts self.new ≡ mem_facts self.old }
        ensures content { Writes bytes.now (mem_content self.old) (mem_content self.new) result }
        ensures cause { HasCause self.old.faults self.new.faults result }
        ensures number { FailsHalf self.old self.new result }
        ensures half { IsErrOf result DeskError.Fault → WritesHalf bytes.now (mem_content self.old) (mem_content self.new) }
    {
        let fails = counts_fault(&self.fail, &mut self.calls, &mut self.faults);
        let part = part_of(bytes, fails);
        if append_to(&mut self.files, self.current.as_str(), part).is_err() {
            return Err(DeskError::Memory);
        }
        if fails {
            return Err(DeskError::Fault);
        }
        Ok(())
    }

    fn finish(&mut self) -> Result<(), DeskError>
        ensures facts { MatchResult result (λ _. mem_facts self.new ≡ with_writing (mem_facts self.old) false) (λ _. mem_facts self.new ≡ mem_facts self.old) }
        ensures content { Finishes (mem_content self.old) (mem_content self.new) result }
        ensures cause { HasCause self.old.faults self.new.faults result }
        ensures number { FailsWhole self.old self.new result }
    {
        if counts_fault(&self.fail, &mut self.calls, &mut self.faults) {
            return Err(DeskError::Fault);
        }
        end_file(&mut self.files, self.current.as_str());
        self.writing = false;
        Ok(())
    }

    fn say(&mut self, bytes: &[u8]) -> Result<(), DeskError>
        ensures facts { mem_facts self.new ≡ mem_facts self.old }
        ensures content { Says bytes.now (mem_content self.old) (mem_content self.new) result }
        ensures cause { HasCause self.old.faults self.new.faults result }
        ensures number { FailsHalf self.old self.new result }
        ensures half { IsErrOf result DeskError.Fault → (mem_content self.new).said ≡ (mem_content self.old).said ++ half bytes.now }
    {
        let fails = counts_fault(&self.fail, &mut self.calls, &mut self.faults);
        let part = part_of(bytes, fails);
        if self.said.extend_from_slice(part).is_err() {
            return Err(DeskError::Memory);
        }
        if fails {
            return Err(DeskError::Fault);
        }
        Ok(())
    }
}
