//! The top table, and the table of the run.

ghost use Rattle.std.specs.Prelude.{◌≡◌, ◌≤◌, List, [], map, length, option_map, codes, string_bytes, Ok, None, Some, IfOk};
ghost use Rattle.toml.specs.Data.{no_members, get_member};
ghost use Rattle.toml.specs.View.{view, table_view};
ghost use Rattle.control_doc.specs.Control.{Is, Parts, parts_in, top_keys, file_count, no_more_than, any_text, run_path, run_in, worker_count};
ghost use Rattle.control_doc.specs.Faults.{and_then};
ghost use Rattle.control_doc.specs.Tables.{there, if_there, integer_at, table_at, tables_at, keys_of, given_or};
ghost use Rattle.control_doc.specs.Views.{Answers};
ghost use Rattle.control_doc.specs.Pieces.{run_view, parts_view};

use crate::arrays::tables_in;
use crate::faults::{ControlCause, ControlError};
use crate::keys::{fault, only_keys, other_key, owned, table_of, text_given, value_at};
use std::alloc::Global;
use toml::{Table, Value};

/// The tables of the top table. One that need not be there is an empty one.
#[derive(Drop)]
pub(crate) struct TopParts<'a> {
    pub output: &'a Table,
    pub run: &'a Table,
    pub files: Vec<&'a Table>,
    pub datum: Option<&'a Table>,
    pub reductions: Vec<&'a Table>,
    pub scale: &'a Table,
}

/// What the table `run` says.
#[derive(Drop)]
pub(crate) struct RunPlan {
    pub reference: String,
    pub workers: usize,
}

/// The most files.
const MOST_FILES: usize = 64;

/// The most keys of the table `scale`.
const MOST_SCALES: usize = 60;

fn value_needed<'a>(alloc: Global, top: &'a Table, key: &str) -> Result<&'a Value, ControlError>
    ensures { Answers (λ value. view value.now) (Is (there key.now (get_member key.now (table_view top.now)))) result }
{
    match value_at(top, key) {
        Some(value) => Ok(value),
        None => Err(fault(alloc, ControlCause::Key, key)),
    }
}

fn output_table<'a>(alloc: Global, top: &'a Table) -> Result<&'a Table, ControlError>
    ensures { Answers (λ table. table_view table.now) (Is (and_then (there (codes "output") (get_member (codes "output") (table_view top.now))) (table_at (codes "output")))) result }
{
    match value_needed(alloc, top, "output") {
        Ok(value) => table_of(alloc, "output", value),
        Err(error) => Err(error),
    }
}

fn table_or<'a>(
    alloc: Global,
    top: &'a Table,
    empty: &'a Table,
    key: &str,
) -> Result<&'a Table, ControlError>
    requires { table_view empty.now ≡ no_members }
    ensures { Answers (λ table. table_view table.now) (Is (if_there no_members (table_at key.now) (get_member key.now (table_view top.now)))) result }
{
    match value_at(top, key) {
        Some(value) => table_of(alloc, key, value),
        None => Ok(empty),
    }
}

fn datum_table<'a>(alloc: Global, top: &'a Table) -> Result<Option<&'a Table>, ControlError>
    ensures { Answers (λ table. option_map (λ table. table_view table.now) table) (Is (if_there None (λ value. and_then (table_at (codes "datum") value) (λ members. Ok (Some members))) (get_member (codes "datum") (table_view top.now)))) result }
{
    let Some(value) = value_at(top, "datum") else {
        return Ok(None);
    };
    match table_of(alloc, "datum", value) {
        Ok(table) => Ok(Some(table)),
        Err(error) => Err(error),
    }
}

fn counted<'a>(alloc: Global, files: Vec<&'a Table>) -> Result<Vec<&'a Table>, ControlError>
    ensures { Answers (λ tables. map (λ table. table_view table.now) tables.items) (Is (file_count (map (λ table. table_view table.now) files.entry.items))) result }
{
    if files.is_empty() {
        return Err(fault(alloc, ControlCause::Value, "file"));
    }
    if files.len() > MOST_FILES {
        return Err(fault(alloc, ControlCause::TooMany, "file"));
    }
    Ok(files)
}

fn file_tables<'a>(alloc: Global, top: &'a Table) -> Result<Vec<&'a Table>, ControlError>
    ensures { Answers (λ tables. map (λ table. table_view table.now) tables.items) (Is (and_then (and_then (there (codes "file") (get_member (codes "file") (table_view top.now))) (tables_at (codes "file"))) file_count)) result }
{
    match value_needed(alloc, top, "file") {
        Ok(value) => match tables_in(alloc, "file", value) {
            Ok(files) => counted(alloc, files),
            Err(error) => Err(error),
        },
        Err(error) => Err(error),
    }
}

fn reduction_tables<'a>(alloc: Global, top: &'a Table) -> Result<Vec<&'a Table>, ControlError>
    ensures { Answers (λ tables. map (λ table. table_view table.now) tables.items) (Is (if_there [] (tables_at (codes "reduce")) (get_member (codes "reduce") (table_view top.now)))) result }
{
    match value_at(top, "reduce") {
        Some(value) => tables_in(alloc, "reduce", value),
        None => Ok(Vec::new(alloc)),
    }
}

fn key_count(table: &Table) -> usize
    ensures { result ≡ length (keys_of (table_view table.now)) }
{
    table.len()
}

fn few<'a>(alloc: Global, scale: &'a Table) -> Result<&'a Table, ControlError>
    ensures value { Answers (λ table. table_view table.now) (Is (no_more_than 60 (codes "scale") (table_view scale.now))) result }
    ensures few { IfOk result (λ table. length (keys_of (table_view table.now)) ≤ 60) }
{
    if key_count(scale) > MOST_SCALES {
        return Err(fault(alloc, ControlCause::Value, "scale"));
    }
    Ok(scale)
}

fn scale_table<'a>(
    alloc: Global,
    top: &'a Table,
    empty: &'a Table,
) -> Result<&'a Table, ControlError>
    requires { table_view empty.now ≡ no_members }
    ensures value { Answers (λ table. table_view table.now) (Is (and_then (if_there no_members (table_at (codes "scale")) (get_member (codes "scale") (table_view top.now))) (no_more_than 60 (codes "scale")))) result }
    ensures few { IfOk result (λ table. length (keys_of (table_view table.now)) ≤ 60) }
{
    match table_or(alloc, top, empty, "scale") {
        Ok(scale) => few(alloc, scale),
        Err(error) => Err(error),
    }
}

/// The keys of the top table.
const TOP_KEYS: [&str; 6] = ["output", "run", "file", "datum", "reduce", "scale"];

fn top_keys(alloc: Global, top: &Table) -> Result<(), ControlError>
    ensures { Answers (λ nothing. nothing) (Is (top_keys (table_view top.now))) result }
{
    match other_key(&TOP_KEYS, top) {
        Some(key) => Err(fault(alloc, ControlCause::Key, key)),
        None => Ok(()),
    }
}

/// The parts of the top table.
pub(crate) fn parts_in<'a>(
    alloc: Global,
    top: &'a Table,
    empty: &'a Table,
) -> Result<TopParts<'a>, ControlError>
    requires { table_view empty.now ≡ no_members }
    ensures value { Answers parts_view (Is (parts_in (table_view top.now))) result }
    ensures few { IfOk result (λ parts. length (keys_of (table_view parts.scale.now)) ≤ 60) }
{
    value!(top_keys(alloc, top));
    let output = value!(output_table(alloc, top));
    let run = value!(table_or(alloc, top, empty, "run"));
    let files = value!(file_tables(alloc, top));
    let datum = value!(datum_table(alloc, top));
    let reductions = value!(reduction_tables(alloc, top));
    let scale = value!(scale_table(alloc, top, empty));
    Ok(TopParts {
        output,
        run,
        files,
        datum,
        reductions,
        scale,
    })
}

fn reference(alloc: Global, run: &Table) -> Result<String, ControlError>
    ensures { Answers (λ text. string_bytes text) (Is (given_or [] any_text run_path (codes "reference") (table_view run.now))) result }
{
    match text_given(alloc, "run", run, "reference") {
        Ok(Some(text)) => owned(alloc, text),
        Ok(None) => Ok(String::new(alloc)),
        Err(error) => Err(error),
    }
}

fn worker_count(alloc: Global, workers: i64) -> Result<usize, ControlError>
    ensures { Answers (λ workers. workers) (Is (worker_count workers)) result }
{
    if 1 <= workers && workers <= 16 {
        Ok(workers as usize)
    } else {
        Err(fault(alloc, ControlCause::Value, "run.workers"))
    }
}

fn workers(alloc: Global, run: &Table) -> Result<usize, ControlError>
    ensures { Answers (λ workers. workers) (Is (if_there 1 (λ value. and_then (integer_at (codes "run.workers") value) worker_count) (get_member (codes "workers") (table_view run.now)))) result }
{
    let Some(value) = value_at(run, "workers") else {
        return Ok(1);
    };
    match value.as_integer() {
        Some(workers) => worker_count(alloc, workers),
        None => Err(fault(alloc, ControlCause::Kind, "run.workers")),
    }
}

/// What the table `run` says.
pub(crate) fn run_in(alloc: Global, run: &Table) -> Result<RunPlan, ControlError>
    ensures { Answers run_view (Is (run_in (table_view run.now))) result }
{
    value!(only_keys(alloc, "run", &["reference", "workers"], run));
    let reference = value!(reference(alloc, run));
    let workers = value!(workers(alloc, run));
    Ok(RunPlan { reference, workers })
}
