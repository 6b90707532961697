//! Arrays whose items are all of a kind.

ghost use Rattle.std.specs.Prelude.{◌≡◌, map, option_map, IfOk};
ghost use Rattle.toml.specs.Data.{as_table, as_str, get_member};
ghost use Rattle.toml.specs.View.{view, table_view, items_view};
ghost use Rattle.control_doc.specs.Control.{Is};
ghost use Rattle.control_doc.specs.Tables.{there, each_as, as_texts, tables_at, texts_at, text_lists_at};
ghost use Rattle.control_doc.specs.Faults.{and_then, key_path};
ghost use Rattle.control_doc.specs.Views.{Answers};

use crate::faults::{ControlCause, ControlError};
use crate::keys::{fault, fault_at, value_at};
use std::alloc::{AllocError, Global};
use toml::{Table, Value};

/// The tables that the items are, if all are tables.
fn tables_of<'a>(alloc: Global, items: &'a [Value]) -> Result<Option<Vec<&'a Table>>, AllocError>
    ensures { IfOk result (λ found. option_map (λ tables. map (λ table. table_view table.now) tables.items) found ≡ each_as as_table (items_view items.now)) }
{
    let mut tables = Vec::new(alloc);
    'items: for item in items {
        let Some(table) = item.as_table() else {
            return Ok(None);
        };
        tables.push(table)?;
    }
    Ok(Some(tables))
}

/// The texts that the items are, if all are texts.
fn texts_of<'a>(alloc: Global, items: &'a [Value]) -> Result<Option<Vec<&'a str>>, AllocError>
    ensures { IfOk result (λ found. option_map (λ texts. map (λ text. text.now) texts.items) found ≡ each_as as_str (items_view items.now)) }
{
    let mut texts = Vec::new(alloc);
    'items: for item in items {
        let Some(text) = item.as_str() else {
            return Ok(None);
        };
        texts.push(text)?;
    }
    Ok(Some(texts))
}

/// The tables of an array at a path.
pub(crate) fn tables_in<'a>(
    alloc: Global,
    path: &str,
    value: &'a Value,
) -> Result<Vec<&'a Table>, ControlError>
    ensures { Answers (λ tables. map (λ table. table_view table.now) tables.items) (Is (tables_at path.now (view value.now))) result }
{
    let Some(items) = value.as_array() else {
        return Err(fault(alloc, ControlCause::Kind, path));
    };
    match tables_of(alloc, items) {
        Ok(Some(tables)) => Ok(tables),
        Ok(None) => Err(fault(alloc, ControlCause::Kind, path)),
        Err(_) => Err(ControlError::Memory),
    }
}

/// The texts that a value is, if it is an array of texts alone.
fn texts_in<'a>(alloc: Global, value: &'a Value) -> Result<Option<Vec<&'a str>>, AllocError>
    ensures { IfOk result (λ found. option_map (λ texts. map (λ text. text.now) texts.items) found ≡ as_texts (view value.now)) }
{
    match value.as_array() {
        Some(items) => texts_of(alloc, items),
        None => Ok(None),
    }
}

/// The texts of an array at a key of a table, which must be there.
pub(crate) fn texts_needed<'a>(
    alloc: Global,
    path: &str,
    table: &'a Table,
    key: &str,
) -> Result<Vec<&'a str>, ControlError>
    ensures { let whole = key_path path.now key.now in Answers (λ texts. map (λ text. text.now) texts.items) (Is (and_then (there whole (get_member key.now (table_view table.now))) (texts_at whole))) result }
{
    let Some(value) = value_at(table, key) else {
        return Err(fault_at(alloc, ControlCause::Key, path, key));
    };
    match texts_in(alloc, value) {
        Ok(Some(texts)) => Ok(texts),
        Ok(None) => Err(fault_at(alloc, ControlCause::Kind, path, key)),
        Err(_) => Err(ControlError::Memory),
    }
}

/// The lists of texts that the items are, if all are such.
fn text_lists_of<'a>(
    alloc: Global,
    items: &'a [Value],
) -> Result<Option<Vec<Vec<&'a str>>>, AllocError>
    ensures { IfOk result (λ found. option_map (λ lists. map (λ texts. map (λ text. text.now) texts.items) lists.items) found ≡ each_as as_texts (items_view items.now)) }
{
    let mut lists = Vec::new(alloc);
    'items: for item in items {
        let Some(texts) = texts_in(alloc, item)? else {
            return Ok(None);
        };
        lists.push(texts)?;
    }
    Ok(Some(lists))
}

/// The lists of texts of an array at a path.
pub(crate) fn text_lists_at<'a>(
    alloc: Global,
    path: &str,
    value: &'a Value,
) -> Result<Vec<Vec<&'a str>>, ControlError>
    ensures { Answers (λ lists. map (λ texts. map (λ text. text.now) texts.items) lists.items) (Is (text_lists_at path.now (view value.now))) result }
{
    let Some(items) = value.as_array() else {
        return Err(fault(alloc, ControlCause::Kind, path));
    };
    match text_lists_of(alloc, items) {
        Ok(Some(lists)) => Ok(lists),
        Ok(None) => Err(fault(alloc, ControlCause::Kind, path)),
        Err(_) => Err(ControlError::Memory),
    }
}
