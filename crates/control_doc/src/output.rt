//! The header of the combined file.

ghost use Rattle.std.specs.Prelude.{◌≡◌, List, [], codes, string_bytes};
ghost use Rattle.toml.specs.View.{table_view};
ghost use Rattle.control_doc.specs.Control.{Is, output_path, output_in};
ghost use Rattle.control_doc.specs.Tables.{needed, given_or};
ghost use Rattle.control_doc.specs.Texts as spec;
ghost use Rattle.control_doc.specs.Views.{Answers};
ghost use Rattle.control_doc.specs.Pieces.{header_view};

use crate::faults::{ControlCause, ControlError};
use crate::keys::{fault_at, only_keys, owned, text_given, text_needed};
use crate::texts::{agency_text, created_text, is_header_text, letter};
use snx_epoch::Epoch;
use std::alloc::Global;
use toml::Table;

/// What the header of the combined file says.
#[derive(Drop)]
pub(crate) struct Header {
    pub agency: [u8; 3],
    pub created: Epoch,
    pub technique: u8,
    pub content: u8,
    pub description: String,
    pub output: String,
    pub contact: String,
}

fn agency(alloc: Global, table: &Table) -> Result<[u8; 3], ControlError>
    ensures { Answers (λ agency. agency) (Is (needed spec.agency_text output_path (codes "agency") (table_view table.now))) result }
{
    match text_needed(alloc, "output", table, "agency") {
        Ok(text) => match agency_text(text.as_bytes()) {
            Some(agency) => Ok(agency),
            None => Err(fault_at(alloc, ControlCause::Value, "output", "agency")),
        },
        Err(error) => Err(error),
    }
}

fn created(alloc: Global, table: &Table) -> Result<Epoch, ControlError>
    ensures { Answers (λ created. created) (Is (needed spec.created_text output_path (codes "created") (table_view table.now))) result }
{
    match text_needed(alloc, "output", table, "created") {
        Ok(text) => match created_text(text.as_bytes()) {
            Some(created) => Ok(created),
            None => Err(fault_at(alloc, ControlCause::Value, "output", "created")),
        },
        Err(error) => Err(error),
    }
}

fn letter_or(alloc: Global, otherwise: u8, table: &Table, key: &str) -> Result<u8, ControlError>
    ensures { Answers (λ letter. letter) (Is (given_or otherwise spec.letter output_path key.now (table_view table.now))) result }
{
    match text_given(alloc, "output", table, key) {
        Ok(Some(text)) => match letter(text.as_bytes()) {
            Some(letter) => Ok(letter),
            None => Err(fault_at(alloc, ControlCause::Value, "output", key)),
        },
        Ok(None) => Ok(otherwise),
        Err(error) => Err(error),
    }
}

fn header_text(alloc: Global, table: &Table, key: &str) -> Result<String, ControlError>
    ensures { Answers (λ text. string_bytes text) (Is (given_or [] spec.header_text output_path key.now (table_view table.now))) result }
{
    match text_given(alloc, "output", table, key) {
        Ok(Some(text)) => {
            if is_header_text(text.as_bytes()) {
                owned(alloc, text)
            } else {
                Err(fault_at(alloc, ControlCause::Value, "output", key))
            }
        }
        Ok(None) => Ok(String::new(alloc)),
        Err(error) => Err(error),
    }
}

/// The keys of the table.
const KEYS: [&str; 7] = [
    "agency",
    "created",
    "technique",
    "content",
    "description",
    "output",
    "contact",
];

/// The header that the table `output` says.
pub(crate) fn output_in(alloc: Global, table: &Table) -> Result<Header, ControlError>
    ensures { Answers header_view (Is (output_in (table_view table.now))) result }
{
    value!(only_keys(alloc, "output", &KEYS, table));
    let agency = value!(agency(alloc, table));
    let created = value!(created(alloc, table));
    let technique = value!(letter_or(alloc, b'C', table, "technique"));
    let content = value!(letter_or(alloc, b'S', table, "content"));
    let description = value!(header_text(alloc, table, "description"));
    let output = value!(header_text(alloc, table, "output"));
    let contact = value!(header_text(alloc, table, "contact"));
    Ok(Header {
        agency,
        created,
        technique,
        content,
        description,
        output,
        contact,
    })
}
