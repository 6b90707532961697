//! The files that are combined.

ghost use Rattle.std.specs.Prelude.{◌≡◌, ◌<◌, ◌≤◌, List, [], map, length, codes, string_bytes};
ghost use Rattle.std.specs.List.{list_any};
ghost use Rattle.std.specs.Str.{bytes_eq};
ghost use Rattle.toml.specs.View.{table_view};
ghost use Rattle.control_doc.specs.Control as spec;
ghost use Rattle.control_doc.specs.Faults.{key_path};
ghost use Rattle.control_doc.specs.Plain.{PlainPlan};
ghost use Rattle.control_doc.specs.Tables.{Entry, given_or};
ghost use Rattle.control_doc.specs.Texts.{group_text, form_text, held_text};
ghost use Rattle.control_doc.specs.Views.{Answers, plan_view};
ghost use Rattle.control_doc.specs.declared.plans.Form.TheVariants as forms;
ghost use Rattle.control_doc.specs.declared.plans.Held.TheVariants as held;

use crate::decimals::weight;
use crate::faults::{ControlCause, ControlError};
use crate::keys::{entry_path, fault_at, only_keys, owned, text_given, text_needed};
use crate::plans::{FilePlan, Form, Held};
use crate::texts::{form_text, held_text, is_shown_in};
use std::alloc::Global;
use toml::Table;

/// Whether a file of this name is listed.
pub(crate) fn is_listed(files: &[FilePlan], name: &str) -> bool
    ensures { result ≡ spec.is_listed (map plan_view files.now) name.now }
{
    match files {
        [] => false,
        [plan, rest @ ..] => plan.name.as_str() == name || is_listed(rest, name),
    }
}

fn has_group(files: &[FilePlan], name: &str) -> bool
    ensures { result ≡ list_any (λ (plan : PlainPlan). bytes_eq plan.group name.now) (map plan_view files.now) }
{
    match files {
        [] => false,
        [plan, rest @ ..] => plan.group.as_str() == name || has_group(rest, name),
    }
}

/// Whether a file is in the group of this name.
pub(crate) fn is_group(files: &[FilePlan], name: &str) -> bool
    ensures { result ≡ spec.is_group (map plan_view files.now) name.now }
{
    !name.is_empty() && has_group(files, name)
}

fn new_name(
    alloc: Global,
    before: &[FilePlan],
    path: &str,
    name: &str,
) -> Result<String, ControlError>
    ensures { Answers (λ name. string_bytes name) (spec.Is (spec.new_name (map plan_view before.now) (key_path path.now (codes "name")) name.now)) result }
{
    if is_listed(before, name) {
        return Err(fault_at(alloc, ControlCause::Repeated, path, "name"));
    }
    owned(alloc, name)
}

/// The keys of the table.
const KEYS: [&str; 5] = ["name", "weight", "group", "form", "constraints"];

fn file_name(
    alloc: Global,
    before: &[FilePlan],
    path: &str,
    table: &Table,
) -> Result<String, ControlError>
    ensures { Answers (λ name. string_bytes name) (spec.Is (spec.file_name (map plan_view before.now) (record { path = path.now; members = table_view table.now }))) result }
{
    value!(only_keys(alloc, path, &KEYS, table));
    let name = value!(text_needed(alloc, path, table, "name"));
    if !is_shown_in(1, 60, name.as_bytes()) {
        return Err(fault_at(alloc, ControlCause::Value, path, "name"));
    }
    new_name(alloc, before, path, name)
}

fn group(alloc: Global, path: &str, table: &Table) -> Result<String, ControlError>
    ensures { Answers (λ text. string_bytes text) (spec.Is (given_or [] group_text path.now (codes "group") (table_view table.now))) result }
{
    match text_given(alloc, path, table, "group") {
        Ok(Some(text)) => {
            if is_shown_in(1, 8, text.as_bytes()) {
                owned(alloc, text)
            } else {
                Err(fault_at(alloc, ControlCause::Value, path, "group"))
            }
        }
        Ok(None) => Ok(String::new(alloc)),
        Err(error) => Err(error),
    }
}

fn form(alloc: Global, path: &str, table: &Table) -> Result<Form, ControlError>
    ensures { Answers (λ form. form) (spec.Is (given_or forms.Auto form_text path.now (codes "form") (table_view table.now))) result }
{
    match text_given(alloc, path, table, "form") {
        Ok(Some(text)) => match form_text(text) {
            Some(form) => Ok(form),
            None => Err(fault_at(alloc, ControlCause::Value, path, "form")),
        },
        Ok(None) => Ok(Form::Auto),
        Err(error) => Err(error),
    }
}

fn constraints(alloc: Global, path: &str, table: &Table) -> Result<Held, ControlError>
    ensures { Answers (λ held. held) (spec.Is (given_or held.Auto held_text path.now (codes "constraints") (table_view table.now))) result }
{
    match text_given(alloc, path, table, "constraints") {
        Ok(Some(text)) => match held_text(text) {
            Some(held) => Ok(held),
            None => Err(fault_at(alloc, ControlCause::Value, path, "constraints")),
        },
        Ok(None) => Ok(Held::Auto),
        Err(error) => Err(error),
    }
}

fn plan_in(
    alloc: Global,
    before: &[FilePlan],
    path: &str,
    table: &Table,
) -> Result<FilePlan, ControlError>
    ensures { Answers plan_view (spec.IsPlan (map plan_view before.now) (record { path = path.now; members = table_view table.now })) result }
{
    let name = file_name(alloc, before, path, table)?;
    let weight = weight(alloc, path, table)?;
    let group = group(alloc, path, table)?;
    let form = form(alloc, path, table)?;
    let held = constraints(alloc, path, table)?;
    Ok(FilePlan {
        name,
        weight,
        group,
        form,
        held,
    })
}

/// The files that the tables say, in turn.
pub(crate) fn plans_in(alloc: Global, tables: &[&Table]) -> Result<Vec<FilePlan>, ControlError>
    ensures { Answers (λ plans. map plan_view plans.items) (spec.ArePlans (map (λ table. table_view table.now) tables.now)) result }
{
    let mut plans = Vec::new(alloc);
    for k in 0..tables.len() {
        let path = entry_path(alloc, "file", k)?;
        let plan = plan_in(alloc, &plans, path.as_str(), tables[k])?;
        plans.push(plan)?;
    }
    Ok(plans)
}
