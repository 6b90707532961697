//! The scale exponents.

ghost use Rattle.std.specs.Prelude.{◌≡◌, ◌≤◌, ◌<◌, ◌+◌, ◌&&◌, ℕ, not, length, codes, option_map, IfOk, OnOk};
ghost use Rattle.std.specs.List.{find, slice_index_or};
ghost use Rattle.std.specs.FinMap as finmap;
ghost use Rattle.toml.specs.Data.{get_member};
ghost use Rattle.toml.specs.View.{table_view};
ghost use Rattle.param_ids.specs.Tables.{ScaleMap, standard_scales, IsScale};
ghost use Rattle.param_ids.specs.Texts.{at_or_blank, in_6};
ghost use Rattle.control_doc.specs.Control as spec;
ghost use Rattle.control_doc.specs.Tables.{keys_of, there, integer_at};
ghost use Rattle.control_doc.specs.Faults.{and_then, key_path};
ghost use Rattle.control_doc.specs.Views.{Answers};

use crate::faults::{ControlCause, ControlError};
use crate::keys::{fault_at, value_at};
use crate::texts::is_plain;
use blanks::trim;
use param_ids::Scales;
use std::alloc::Global;
use toml::Table;

fn is_type(key: &[u8]) -> bool
    ensures { result ≡ spec.is_type key.now }
{
    1 <= key.len() && key.len() <= 6 && is_plain(key) && trim(key) == key
}

/// The least key that is no type of parameters.
fn bad_type<'a>(table: &'a Table) -> Option<&'a str>
    ensures { option_map (λ key. key.now) result ≡ find (λ key. not (spec.is_type key)) (keys_of (table_view table.now)) }
{
    'keys: for (key, _value) in table.iter() {
        if !is_type(key.as_bytes()) {
            return Some(key.as_str());
        }
    }
    None
}

fn scale_keys(alloc: Global, table: &Table) -> Result<(), ControlError>
    ensures { Answers (λ nothing. nothing) (spec.Is (spec.scale_keys (table_view table.now))) result }
{
    match bad_type(table) {
        Some(key) => Err(fault_at(alloc, ControlCause::Key, "scale", key)),
        None => Ok(()),
    }
}

fn byte_at(text: &[u8], i: usize) -> u8
    ensures { result ≡ at_or_blank text.now i }
{
    if i < text.len() { text[i] } else { b' ' }
}

/// A type in six bytes.
fn padded(text: &[u8]) -> [u8; 6]
    ensures { result ≡ in_6 text.now }
{
    [
        byte_at(text, 0),
        byte_at(text, 1),
        byte_at(text, 2),
        byte_at(text, 3),
        byte_at(text, 4),
        byte_at(text, 5),
    ]
}

/// The exponent of a type, from -4 to 6.
fn exponent(alloc: Global, table: &Table, key: &str) -> Result<i32, ControlError>
    ensures value { let path = key_path (codes "scale") key.now in Answers (λ t. t) (spec.Is (and_then (and_then (there path (get_member key.now (table_view table.now))) (integer_at path)) (spec.exponent_of path))) result }
    ensures range { IfOk result IsScale }
{
    let Some(value) = value_at(table, key) else {
        return Err(fault_at(alloc, ControlCause::Key, "scale", key));
    };
    let Some(t) = value.as_integer() else {
        return Err(fault_at(alloc, ControlCause::Kind, "scale", key));
    };
    if -4 <= t && t <= 6 {
        Ok(t as i32)
    } else {
        Err(fault_at(alloc, ControlCause::Value, "scale", key))
    }
}

/// Sets the exponent of a type.
fn set_scale(
    alloc: Global,
    table: &Table,
    scales: &mut Scales,
    key: &str,
) -> Result<(), ControlError>
    requires { finmap.len scales.old < 64 }
    ensures value { Answers (λ nothing. scales.new) (spec.Is (spec.with_scale (table_view table.now) scales.old key.now)) result }
    ensures size { OnOk result (finmap.len scales.new ≤ finmap.len scales.old + 1) }
{
    match exponent(alloc, table, key) {
        Ok(t) => match scales.set(padded(key.as_bytes()), t) {
            Ok(()) => Ok(()),
            Err(_) => Err(ControlError::Memory),
        },
        Err(error) => Err(error),
    }
}

/// The standard exponents, and those of the table in the place of theirs.
fn scales_from(alloc: Global, table: &Table) -> Result<Scales, ControlError>
    requires { length (keys_of (table_view table.now)) ≤ 60 }
    ensures { Answers (λ scales. scales) (spec.Is (spec.scales_from (table_view table.now) standard_scales (keys_of (table_view table.now)))) result }
{
    let mut scales = Scales::standard(alloc)?;
    'keys: for (key, _value) in table.iter() {
        set_scale(alloc, table, &mut scales, key.as_str())?;
    }
    Ok(scales)
}

/// The scale exponents that the table says.
pub(crate) fn scales_in(alloc: Global, table: &Table) -> Result<Scales, ControlError>
    requires { length (keys_of (table_view table.now)) ≤ 60 }
    ensures { Answers (λ scales. scales) (spec.Is (spec.scales_in (table_view table.now))) result }
{
    match scale_keys(alloc, table) {
        Ok(()) => scales_from(alloc, table),
        Err(error) => Err(error),
    }
}
