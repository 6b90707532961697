//! What stands at the keys of a table.

ghost use Rattle.std.specs.Prelude.{◌≡◌, ◌++◌, map, option_map, string_bytes, Ok, IfOk};
ghost use Rattle.std.specs.List.{list_any, find};
ghost use Rattle.std.specs.Str.{bytes_eq};
ghost use Rattle.toml.specs.Data.{get_member, as_table, as_str};
ghost use Rattle.toml.specs.View.{view, table_view, items_view, array_view};
ghost use Rattle.control_doc.specs.Control.{Is};
ghost use Rattle.control_doc.specs.Tables as spec;
ghost use Rattle.control_doc.specs.Faults.{key_path, entry_path};
ghost use Rattle.control_doc.specs.Views.{Answers, IsFault};

use crate::faults::{ControlCause, ControlError, ControlFault};
use std::alloc::{AllocError, Global};
use toml::{Table, Value};

/// A fault at a path, or want of memory for the path.
pub(crate) fn fault(alloc: Global, cause: ControlCause, path: &str) -> ControlError
    ensures { IsFault result cause path.now }
{
    match String::from_str(alloc, path) {
        Ok(path) => ControlError::Fault(ControlFault { cause, path }),
        Err(_) => ControlError::Memory,
    }
}

/// A fault at a key of a table.
pub(crate) fn fault_at(alloc: Global, cause: ControlCause, path: &str, key: &str) -> ControlError
    ensures { IsFault result cause (key_path path.now key.now) }
{
    match format!(in alloc; "{path}.{key}") {
        Ok(path) => ControlError::Fault(ControlFault { cause, path }),
        Err(_) => ControlError::Memory,
    }
}

/// The path of an entry of an array of tables.
pub(crate) fn entry_path(alloc: Global, array: &str, k: usize) -> Result<String, AllocError>
    ensures { IfOk result (λ path. string_bytes path ≡ entry_path array.now k) }
{
    format!(in alloc; "{array}.{k}")
}

/// A text of its own.
pub(crate) fn owned(alloc: Global, text: &str) -> Result<String, ControlError>
    ensures { Answers (λ text. string_bytes text) (Is (Ok text.now)) result }
{
    match String::from_str(alloc, text) {
        Ok(text) => Ok(text),
        Err(_) => Err(ControlError::Memory),
    }
}

/// The value at a key.
pub(crate) fn value_at<'a>(table: &'a Table, key: &str) -> Option<&'a Value>
    ensures { option_map (λ value. view value.now) result ≡ get_member key.now (table_view table.now) }
{
    table.get(key)
}

/// A text that must be there.
pub(crate) fn text_needed<'a>(
    alloc: Global,
    path: &str,
    table: &'a Table,
    key: &str,
) -> Result<&'a str, ControlError>
    ensures { Answers (λ text. text.now) (Is (spec.text_needed path.now key.now (table_view table.now))) result }
{
    let Some(value) = value_at(table, key) else {
        return Err(fault_at(alloc, ControlCause::Key, path, key));
    };
    match value.as_str() {
        Some(text) => Ok(text),
        None => Err(fault_at(alloc, ControlCause::Kind, path, key)),
    }
}

/// A text that need not be there.
pub(crate) fn text_given<'a>(
    alloc: Global,
    path: &str,
    table: &'a Table,
    key: &str,
) -> Result<Option<&'a str>, ControlError>
    ensures { Answers (λ given. option_map (λ text. text.now) given) (Is (spec.text_given path.now key.now (table_view table.now))) result }
{
    let Some(value) = value_at(table, key) else {
        return Ok(None);
    };
    match value.as_str() {
        Some(text) => Ok(Some(text)),
        None => Err(fault_at(alloc, ControlCause::Kind, path, key)),
    }
}

/// Whether a key is one of these words.
fn is_known(known: &[&str], key: &str) -> bool
    ensures { result ≡ list_any (bytes_eq key.now) (map (λ word. word.now) known.now) }
{
    match known {
        [] => false,
        [word, rest @ ..] => key == *word || is_known(rest, key),
    }
}

/// The least key of a table that is none of these words.
pub(crate) fn other_key<'a>(known: &[&str], table: &'a Table) -> Option<&'a str>
    ensures { option_map (λ key. key.now) result ≡ find (spec.is_other (map (λ word. word.now) known.now)) (spec.keys_of (table_view table.now)) }
{
    'keys: for (key, _value) in table.iter() {
        if !is_known(known, key.as_str()) {
            return Some(key.as_str());
        }
    }
    None
}

/// Refuses a table that has other keys than these.
pub(crate) fn only_keys(
    alloc: Global,
    path: &str,
    known: &[&str],
    table: &Table,
) -> Result<(), ControlError>
    ensures { Answers (λ nothing. nothing) (Is (spec.only_keys path.now (map (λ word. word.now) known.now) (table_view table.now))) result }
{
    match other_key(known, table) {
        Some(key) => Err(fault_at(alloc, ControlCause::Key, path, key)),
        None => Ok(()),
    }
}

/// A table at a path.
pub(crate) fn table_of<'a>(
    alloc: Global,
    path: &str,
    value: &'a Value,
) -> Result<&'a Table, ControlError>
    ensures { Answers (λ table. table_view table.now) (Is (spec.table_at path.now (view value.now))) result }
{
    match value.as_table() {
        Some(table) => Ok(table),
        None => Err(fault(alloc, ControlCause::Kind, path)),
    }
}
