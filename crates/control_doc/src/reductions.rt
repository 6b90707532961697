//! The parameters that are reduced.

ghost use Rattle.std.specs.Prelude.{◌≡◌, List, [], map, codes, string_bytes, IfSome};
ghost use Rattle.std.specs.List.{list_any};
ghost use Rattle.toml.specs.Data.{get_member};
ghost use Rattle.toml.specs.View.{table_view};
ghost use Rattle.snx_epoch.specs.Moments.{IsMoment};
ghost use Rattle.param_ids.specs.Order.{is_same_id};
ghost use Rattle.control_doc.specs.Control as spec;
ghost use Rattle.control_doc.specs.Faults.{and_then, or_fault, key_path};
ghost use Rattle.control_doc.specs.Plain.{PlainReduction};
ghost use Rattle.control_doc.specs.Tables.{Entry, there, texts_at, needed};
ghost use Rattle.control_doc.specs.Texts.{place_text};
ghost use Rattle.control_doc.specs.Views.{Answers, reduction_view};
ghost use Rattle.control_doc.specs.declared.faults.ControlCause.TheVariants as causes;

use crate::arrays::texts_needed;
use crate::faults::{ControlCause, ControlError};
use crate::keys::{entry_path, fault_at, only_keys, owned, text_needed};
use crate::plans::{Place, Reduction};
use crate::texts::{
    code_of_name, epoch_of_name, kind_of_name, place_text, point_of_name, soln_of_name,
};
use param_ids::ParamId;
use snx_epoch::Epoch;
use std::alloc::Global;
use toml::Table;

/// The name that five parts make.
fn id_in(
    kind: Option<[u8; 6]>,
    code: Option<[u8; 4]>,
    point: Option<[u8; 2]>,
    soln: Option<[u8; 4]>,
    epoch: Option<Epoch>,
) -> Option<ParamId>
    requires { IfSome epoch IsMoment }
    ensures { result ≡ spec.id_in kind code point soln epoch }
{
    let kind = kind?;
    let code = code?;
    let point = point?;
    let soln = soln?;
    let epoch = epoch?;
    Some(ParamId {
        kind,
        code,
        point,
        soln,
        epoch,
    })
}

/// The name of five texts.
fn id_of(texts: &[&str]) -> Option<ParamId>
    ensures { result ≡ spec.id_of (map (λ text. text.now) texts.now) }
{
    match texts {
        [kind, code, point, soln, epoch] => id_in(
            kind_of_name(kind.as_bytes()),
            code_of_name(code.as_bytes()),
            point_of_name(point.as_bytes()),
            soln_of_name(soln.as_bytes()),
            epoch_of_name(epoch.as_bytes()),
        ),
        _ => None,
    }
}

fn is_same(a: &ParamId, b: &ParamId) -> bool
    ensures { result ≡ is_same_id a.now b.now }
{
    a.cmp(b).is_eq()
}

fn is_reduced(before: &[Reduction], id: &ParamId) -> bool
    ensures { result ≡ list_any (λ (reduction : PlainReduction). is_same_id reduction.id id.now) (map reduction_view before.now) }
{
    match before {
        [] => false,
        [reduction, rest @ ..] => is_same(&reduction.id, id) || is_reduced(rest, id),
    }
}

fn place(alloc: Global, path: &str, table: &Table) -> Result<Place, ControlError>
    ensures { Answers (λ place. place) (spec.Is (needed place_text path.now (codes "at") (table_view table.now))) result }
{
    match text_needed(alloc, path, table, "at") {
        Ok(text) => match place_text(text) {
            Some(place) => Ok(place),
            None => Err(fault_at(alloc, ControlCause::Value, path, "at")),
        },
        Err(error) => Err(error),
    }
}

fn named(alloc: Global, path: &str, table: &Table) -> Result<String, ControlError>
    ensures { Answers (λ text. string_bytes text) (spec.Is (needed spec.any_text path.now (codes "of") (table_view table.now))) result }
{
    match text_needed(alloc, path, table, "of") {
        Ok(text) => owned(alloc, text),
        Err(error) => Err(error),
    }
}

fn of_text(alloc: Global, place: Place, path: &str, table: &Table) -> Result<String, ControlError>
    ensures { Answers (λ text. string_bytes text) (spec.Is (spec.of_text place (record { path = path.now; members = table_view table.now }))) result }
{
    match place {
        Place::File | Place::Group => named(alloc, path, table),
        Place::End => Ok(String::new(alloc)),
    }
}

fn new_id(
    alloc: Global,
    before: &[Reduction],
    path: &str,
    texts: &[&str],
) -> Result<ParamId, ControlError>
    ensures { let param = key_path path.now (codes "param") in Answers (λ id. id) (spec.Is (and_then (or_fault causes.Value param (spec.id_of (map (λ text. text.now) texts.now))) (spec.new_id (map reduction_view before.now) param))) result }
{
    let Some(id) = id_of(texts) else {
        return Err(fault_at(alloc, ControlCause::Value, path, "param"));
    };
    if is_reduced(before, &id) {
        return Err(fault_at(alloc, ControlCause::Repeated, path, "param"));
    }
    Ok(id)
}

fn reduction_in(
    alloc: Global,
    before: &[Reduction],
    path: &str,
    table: &Table,
) -> Result<Reduction, ControlError>
    ensures { Answers reduction_view (spec.Is (spec.reduction_in (map reduction_view before.now) (record { path = path.now; members = table_view table.now }))) result }
{
    only_keys(alloc, path, &["at", "of", "param"], table)?;
    let place = place(alloc, path, table)?;
    let of = of_text(alloc, place, path, table)?;
    let texts = texts_needed(alloc, path, table, "param")?;
    let id = new_id(alloc, before, path, &texts)?;
    Ok(Reduction { place, of, id })
}

/// The reductions that the tables say, in turn.
pub(crate) fn reductions_in(
    alloc: Global,
    tables: &[&Table],
) -> Result<Vec<Reduction>, ControlError>
    ensures { Answers (λ reductions. map reduction_view reductions.items) (spec.AreReductions (map (λ table. table_view table.now) tables.now)) result }
{
    let mut reductions = Vec::new(alloc);
    for k in 0..tables.len() {
        let path = entry_path(alloc, "reduce", k)?;
        let reduction = reduction_in(alloc, &reductions, path.as_str(), tables[k])?;
        reductions.push(reduction)?;
    }
    Ok(reductions)
}
