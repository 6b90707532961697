//! Refusals, with their statuses and lines.
ghost use Rattle.std.specs.Prelude.{◌≡◌, ◌≢◌, ◌++◌, IfOk, codes};
ghost use Rattle.std.specs.Fmt.{decimal};
ghost use Rattle.param_ids.specs.Ids.{id_text};
ghost use Rattle.snx_blocks.specs.Sections.{section_name};
ghost use Rattle.refusal_lines.specs.Refusals.{IsStatus, status_of, place_text, frame_text, cause_text, control_cause_text, control_text, at_unknown, site_text, text_of, line_of};
ghost use Rattle.refusal_lines.specs.declared.refusal.Refusal.TheVariants.{Memory};

use crate::name::Name;
use blanks::trim;
use control_doc::{ControlCause, Site};
use param_ids::{ParamId, push_id};
use snx_blocks::{Cause, LineFault, Section};
use snx_lines::FrameCause;
use std::alloc::{AllocError, Global};

/// Where a refusal arose: at the numbers of one file, at those of a group, or at those of the whole stack.
#[derive(Drop)]
pub enum Scope {
    File(Name),
    Group(Name),
    Stack,
}

/// Why a run writes nothing.
#[derive(Drop)]
pub enum Refusal {
    /// The words are no command.
    Words,
    /// The control file says no control: its first fault, with the path of the key. For SameName the path is the file's name.
    Control {
        cause: ControlCause,
        path: Name,
    },
    /// There is no file of that name.
    NoFile {
        name: Name,
    },
    /// The file of that name has more bytes than it may have: 64 MiB, and 1 MiB as a control file; or those of all files
    /// together pass 1 GiB at it.
    TooLong {
        name: Name,
    },
    /// A line of the file is bad, the first of them.
    Line {
        name: Name,
        fault: LineFault,
    },
    /// The file lacks a block that is needed.
    Block {
        place: Scope,
        block: Section,
    },
    /// The a priori values have two units for this name, the least of those that have.
    UnitClash {
        id: ParamId,
    },
    /// The right side has a row of this name, the first of those that have no a priori value.
    Unmatched {
        place: Scope,
        id: ParamId,
    },
    /// The row of this name has no positive standard deviation, which its correlations need: the first such row.
    NoWeight {
        place: Scope,
        id: ParamId,
    },
    /// A coordinate of this site of the datum, the first such, is not there exactly once.
    UnmatchedSite {
        site: Site,
    },
    /// The right side has no row.
    Empty {
        place: Scope,
    },
    /// More than 1,000 parameters would stand there: so many.
    TooMany {
        place: Scope,
        count: u32,
    },
    /// The file of that name asks for what isn't built yet.
    Unbuilt {
        name: Name,
    },
    /// Memory is wanting.
    Memory,
    /// The desk failed, and its count of faults rose.
    Desk,
    /// A number of this row and column passes its range. One of a row alone names it twice.
    Range {
        place: Scope,
        row: ParamId,
        col: ParamId,
    },
    /// The approximate factor ends before this row.
    Pivot {
        place: Scope,
        id: ParamId,
    },
    /// The approximate inverse passes its bounds in this column.
    Condition {
        place: Scope,
        id: ParamId,
    },
    /// The error of this row is too great.
    Residual {
        place: Scope,
        id: ParamId,
        size: u128,
    },
    /// The defect of this row is too great, in parts of 2^30.
    Defect {
        place: Scope,
        id: ParamId,
        parts: u64,
    },
}

impl From<AllocError> for Refusal {
    ghost from_gives = { λ _ refusal. refusal ≡ Memory };

    fn from(_e: AllocError) -> Refusal {
        Refusal::Memory
    }
}

/// The line of want of memory, which is said without taking any.
pub const MEMORY_LINE: &[u8] = b"snxcomb: memory\n";

/// The line of a fault.
pub const DESK_LINE: &[u8] = b"snxcomb: desk\n";

/// The status of a refusal.
pub fn status(refusal: &Refusal) -> u8
    ensures value { result ≡ status_of refusal.now }
    ensures known { IsStatus result }
    ensures refused { result ≢ 0 }
{
    match refusal {
        Refusal::Words => 2,
        Refusal::Control { .. }
        | Refusal::NoFile { .. }
        | Refusal::TooLong { .. }
        | Refusal::Line { .. }
        | Refusal::Block { .. }
        | Refusal::UnitClash { .. }
        | Refusal::Unmatched { .. }
        | Refusal::NoWeight { .. }
        | Refusal::UnmatchedSite { .. }
        | Refusal::Empty { .. }
        | Refusal::TooMany { .. }
        | Refusal::Unbuilt { .. } => 3,
        Refusal::Memory => 4,
        Refusal::Desk => 5,
        Refusal::Range { .. }
        | Refusal::Pivot { .. }
        | Refusal::Condition { .. }
        | Refusal::Residual { .. }
        | Refusal::Defect { .. } => 6,
    }
}

// One text and then another.
fn joined(alloc: Global, first: &[u8], second: &[u8]) -> Result<Vec<u8>, AllocError>
    ensures { IfOk result (λ text. text.items ≡ first.now ++ second.now) }
{
    let mut text = Vec::from_slice(alloc, first)?;
    text.extend_from_slice(second)?;
    Ok(text)
}

// Why a line breaks the frame of its text.
fn frame_text(cause: FrameCause) -> &'static [u8]
    ensures { result.now ≡ frame_text cause }
{
    match cause {
        FrameCause::NoHeader => b"NoHeader",
        FrameCause::Version => b"Version",
        FrameCause::FirstColumn => b"FirstColumn",
        FrameCause::Nested => b"Nested",
        FrameCause::WrongEnd => b"WrongEnd",
        FrameCause::NoEnd => b"NoEnd",
        FrameCause::AfterFooter => b"AfterFooter",
        FrameCause::NoFooter => b"NoFooter",
    }
}

// Why a line is bad.
fn cause_text(cause: Cause) -> &'static [u8]
    ensures { result.now ≡ cause_text cause }
{
    match cause {
        Cause::Frame(cause) => frame_text(cause),
        Cause::Field => b"Field",
        Cause::Epoch(_) => b"Epoch",
        Cause::Index => b"Index",
        Cause::Number(_) => b"Number",
        Cause::Size => b"Size",
        Cause::Triangle => b"Triangle",
        Cause::Repeated => b"Repeated",
        Cause::MissingBlock => b"MissingBlock",
        Cause::TooMany => b"TooMany",
    }
}

// The name of a block.
fn section_name(block: Section) -> &'static [u8]
    ensures { result.now ≡ section_name block }
{
    match block {
        Section::Estimates => b"SOLUTION/ESTIMATE",
        Section::Apriori => b"SOLUTION/APRIORI",
        Section::Vector => b"SOLUTION/NORMAL_EQUATION_VECTOR",
        Section::EstimateMatrix => b"SOLUTION/MATRIX_ESTIMATE",
        Section::AprioriMatrix => b"SOLUTION/MATRIX_APRIORI",
        Section::NormalMatrix => b"SOLUTION/NORMAL_EQUATION_MATRIX",
        Section::Sites => b"SITE/ID",
        Section::Epochs => b"SOLUTION/EPOCHS",
    }
}

// Where a refusal arose.
fn place_text(alloc: Global, place: &Scope) -> Result<Vec<u8>, AllocError>
    ensures { IfOk result (λ text. text.items ≡ place_text place.now) }
{
    match place {
        Scope::File(name) => joined(alloc, b"file:", name.as_bytes()),
        Scope::Group(name) => joined(alloc, b"group:", name.as_bytes()),
        Scope::Stack => Vec::from_slice(alloc, b"stack"),
    }
}

// Why a control file says no control.
fn control_cause_text(cause: ControlCause) -> &'static [u8]
    ensures { result.now ≡ control_cause_text cause }
{
    match cause {
        ControlCause::Syntax => b"syntax",
        ControlCause::Key => b"key",
        ControlCause::Kind => b"kind",
        ControlCause::Value => b"value",
        ControlCause::Repeated => b"repeated",
        ControlCause::TooMany => b"toomany",
        ControlCause::SameName => b"samename",
    }
}

// A fault of a control file. A text that is no TOML has no path.
fn control_text(alloc: Global, cause: ControlCause, path: &Name) -> Result<Vec<u8>, AllocError>
    ensures { IfOk result (λ text. text.items ≡ control_text cause path.now) }
{
    let mut text = joined(alloc, b"control ", control_cause_text(cause))?;
    if cause != ControlCause::Syntax {
        text.push(b' ')?;
        text.extend_from_slice(path.as_bytes())?;
    }
    Ok(text)
}

// So many parameters that are too many.
fn too_many_text(alloc: Global, place: &Scope, count: u32) -> Result<Vec<u8>, AllocError>
    ensures { IfOk result (λ text. text.items ≡ codes "too many " ++ (place_text place.now ++ (codes " " ++ decimal count))) }
{
    let place = place_text(alloc, place)?;
    let number = format!(in alloc; " {count}")?;
    let mut text = joined(alloc, b"too many ", &place)?;
    text.extend_from_slice(number.as_bytes())?;
    Ok(text)
}

// A bad line of a file.
fn line_text(alloc: Global, name: &Name, fault: LineFault) -> Result<Vec<u8>, AllocError>
    ensures { IfOk result (λ text. text.items ≡ name.now ++ (codes ":" ++ (decimal fault.line ++ (codes " " ++ cause_text fault.cause)))) }
{
    let line = fault.line;
    let number = format!(in alloc; ":{line} ")?;
    let mut text = joined(alloc, name.as_bytes(), number.as_bytes())?;
    text.extend_from_slice(cause_text(fault.cause))?;
    Ok(text)
}

// A block that is missing.
fn block_text(alloc: Global, place: &Scope, block: Section) -> Result<Vec<u8>, AllocError>
    ensures { IfOk result (λ text. text.items ≡ codes "block " ++ (place_text place.now ++ (codes " " ++ section_name block))) }
{
    let place = place_text(alloc, place)?;
    let mut text = joined(alloc, b"block ", &place)?;
    text.push(b' ')?;
    text.extend_from_slice(section_name(block))?;
    Ok(text)
}

// A right side without rows.
fn empty_text(alloc: Global, place: &Scope) -> Result<Vec<u8>, AllocError>
    ensures { IfOk result (λ text. text.items ≡ codes "empty " ++ place_text place.now) }
{
    let place = place_text(alloc, place)?;
    joined(alloc, b"empty ", &place)
}

// What is refused of a parameter, and where.
fn at_unknown(
    alloc: Global,
    what: &[u8],
    place: &Scope,
    id: &ParamId,
) -> Result<Vec<u8>, AllocError>
    ensures { IfOk result (λ text. text.items ≡ at_unknown what.now place.now id.now) }
{
    let place = place_text(alloc, place)?;
    let mut text = joined(alloc, what, &place)?;
    text.push(b' ')?;
    push_id(&mut text, id)?;
    Ok(text)
}

// A parameter with two units.
fn unit_text(alloc: Global, id: &ParamId) -> Result<Vec<u8>, AllocError>
    ensures { IfOk result (λ text. text.items ≡ codes "unit " ++ id_text id.now) }
{
    let mut text = Vec::from_slice(alloc, b"unit ")?;
    push_id(&mut text, id)?;
    Ok(text)
}

// A site of a datum.
fn site_text(alloc: Global, site: &Site) -> Result<Vec<u8>, AllocError>
    ensures { IfOk result (λ text. text.items ≡ site_text site.now) }
{
    let mut text = Vec::from_slice(alloc, trim(&site.code))?;
    text.push(b'/')?;
    text.extend_from_slice(trim(&site.point))?;
    text.push(b'/')?;
    text.extend_from_slice(trim(&site.soln))?;
    Ok(text)
}

// A site of a datum without its coordinates.
fn unmatched_site_text(alloc: Global, site: &Site) -> Result<Vec<u8>, AllocError>
    ensures { IfOk result (λ text. text.items ≡ codes "unmatched site " ++ site_text site.now) }
{
    let site = site_text(alloc, site)?;
    joined(alloc, b"unmatched site ", &site)
}

// A range, with the names of its row and its column.
fn range_text(
    alloc: Global,
    place: &Scope,
    row: &ParamId,
    col: &ParamId,
) -> Result<Vec<u8>, AllocError>
    ensures { IfOk result (λ text. text.items ≡ at_unknown (codes "range ") place.now row.now ++ (codes " " ++ id_text col.now)) }
{
    let mut text = at_unknown(alloc, b"range ", place, row)?;
    text.push(b' ')?;
    push_id(&mut text, col)?;
    Ok(text)
}

// What is refused of a parameter, with a number.
fn with_number(
    alloc: Global,
    what: &[u8],
    place: &Scope,
    id: &ParamId,
    n: u128,
) -> Result<Vec<u8>, AllocError>
    ensures { IfOk result (λ text. text.items ≡ at_unknown what.now place.now id.now ++ (codes " " ++ decimal n)) }
{
    let number = format!(in alloc; " {n}")?;
    let text = at_unknown(alloc, what, place, id)?;
    joined(alloc, &text, number.as_bytes())
}

// What a refusal says.
fn text(alloc: Global, refusal: &Refusal) -> Result<Vec<u8>, AllocError>
    ensures { IfOk result (λ text. text.items ≡ text_of refusal.now) }
{
    match refusal {
        Refusal::Words => Vec::from_slice(alloc, b"words"),
        Refusal::Control { cause, path } => control_text(alloc, *cause, path),
        Refusal::NoFile { name } => joined(alloc, b"no file ", name.as_bytes()),
        Refusal::TooLong { name } => joined(alloc, b"too long ", name.as_bytes()),
        Refusal::Line { name, fault } => line_text(alloc, name, *fault),
        Refusal::Block { place, block } => block_text(alloc, place, *block),
        Refusal::UnitClash { id } => unit_text(alloc, id),
        Refusal::Unmatched { place, id } => at_unknown(alloc, b"unmatched ", place, id),
        Refusal::NoWeight { place, id } => at_unknown(alloc, b"no weight ", place, id),
        Refusal::UnmatchedSite { site } => unmatched_site_text(alloc, site),
        Refusal::Empty { place } => empty_text(alloc, place),
        Refusal::TooMany { place, count } => too_many_text(alloc, place, *count),
        Refusal::Unbuilt { name } => joined(alloc, b"unbuilt ", name.as_bytes()),
        Refusal::Memory => Vec::from_slice(alloc, b"memory"),
        Refusal::Desk => Vec::from_slice(alloc, b"desk"),
        Refusal::Range { place, row, col } => range_text(alloc, place, row, col),
        Refusal::Pivot { place, id } => at_unknown(alloc, b"pivot ", place, id),
        Refusal::Condition { place, id } => at_unknown(alloc, b"condition ", place, id),
        Refusal::Residual { place, id, size } => {
            with_number(alloc, b"residual ", place, id, *size)
        }
        Refusal::Defect { place, id, parts } => {
            with_number(alloc, b"defect ", place, id, u128::from(*parts))
        }
    }
}

/// The line of a refusal.
pub fn line(alloc: Global, refusal: &Refusal) -> Result<Vec<u8>, AllocError>
    ensures { IfOk result (λ line. line.items ≡ line_of refusal.now) }
{
    let what = text(alloc, refusal)?;
    let mut line = joined(alloc, b"snxcomb: ", &what)?;
    line.push(b'\n')?;
    Ok(line)
}
