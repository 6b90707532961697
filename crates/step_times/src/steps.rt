//! The steps, one after another, each with its time.

ghost use Rattle.std.specs.Prelude.{IfOk};
ghost use Rattle.neq_stack.specs.Neqs.{IsSound, neq_view};

use crate::calls::{
    doc_in, factored, inverted, neq_of, pilot_of, radius_of, rows_of, solved, vector_of, working_of,
};
use crate::tables::strongly_diagonal;
use anyhow::{Result, bail};
use equil::{Working, working};
use interval_word::Iv;
use neq_stack::Neq;
use std::fs::{self, Files};
use std::thread::Threads;
use std::time::{Clock, Instant};

/// The milliseconds since a moment.
fn since<R: Clock>(rt: &R, start: &Instant) -> Result<u128> {
    Ok(start.elapsed(rt)?.as_millis())
}

/// The steps from the working table to its certificate.
fn working_steps<R: Threads + Sync + Clock + Print + AllocGlobal>(
    rt: &R,
    w: &Working<16>,
    is_quiet: bool,
) -> Result<()> {
    let alloc = rt.alloc();
    let start = Instant::now(rt)?;
    factored(alloc, w)?;
    let factor = since(rt, &start)?;
    let start = Instant::now(rt)?;
    let p = pilot_of(rt, alloc, w)?;
    let pilot = since(rt, &start)?;
    let start = Instant::now(rt)?;
    let table_rows = rows_of(alloc, w)?;
    let rows = since(rt, &start)?;
    let start = Instant::now(rt)?;
    let y = vector_of(alloc, &table_rows, &w.d, &p)?;
    let vector = since(rt, &start)?;
    let start = Instant::now(rt)?;
    let radius = radius_of(rt, alloc, &table_rows, &w.d, &p, &y)?;
    let check = since(rt, &start)?;
    println!(rt; "g={} B={} M={}", p.g(), radius.b, radius.m)?;
    if !is_quiet {
        println!(rt; "factor {factor} pilot {pilot} rows {rows} vector {vector} check {check}")?;
    }
    Ok(())
}

/// The steps of a strongly diagonal table.
pub fn table_steps<R: Threads + Sync + Clock + Print + AllocGlobal>(
    rt: &R,
    rows: usize,
    is_quiet: bool,
) -> Result<()> {
    if rows == 0 || rows > 1000 {
        bail!("the number of rows is from 1 to 1,000");
    }
    let alloc = rt.alloc();
    let table = strongly_diagonal(alloc, rows)?;
    let right = vec![in alloc; Iv::point(0); rows]?;
    let w = working(alloc, &table, &right)?;
    working_steps(rt, &w, is_quiet)
}

/// The enclosed inverse of a strongly diagonal table, as of covariances.
pub fn inverse_steps<R: Threads + Sync + Clock + Print + AllocGlobal>(
    rt: &R,
    rows: usize,
) -> Result<()> {
    if rows == 0 || rows > 1000 {
        bail!("the number of rows is from 1 to 1,000");
    }
    let alloc = rt.alloc();
    let table = strongly_diagonal(alloc, rows)?;
    let start = Instant::now(rt)?;
    inverted(rt, alloc, &table)?;
    println!(rt; "inverse {}", since(rt, &start)?)?;
    Ok(())
}

/// The steps of normal equations, and then all of them once more together.
fn neq_steps<R: Threads + Sync + Clock + Print + AllocGlobal>(
    rt: &R,
    neq: &Neq<16>,
    is_quiet: bool,
) -> Result<()>
    requires { IsSound (neq_view neq.now) }
{
    let alloc = rt.alloc();
    let start = Instant::now(rt)?;
    let w = working_of(alloc, neq)?;
    let tables = since(rt, &start)?;
    working_steps(rt, &w, is_quiet)?;
    let start = Instant::now(rt)?;
    solved(rt, alloc, neq)?;
    let solve = since(rt, &start)?;
    if !is_quiet {
        println!(rt; "tables {tables} solve {solve}")?;
    }
    Ok(())
}

/// The normal equations of a SINEX file, with the times of reading and of recovery.
fn recovered<R: Threads + Sync + Clock + Files + Print + AllocGlobal>(
    rt: &R,
    name: &str,
    is_quiet: bool,
) -> Result<Neq<16>>
    ensures { IfOk result (λ neq. IsSound (neq_view neq)) }
{
    let start = Instant::now(rt)?;
    let text = fs::read(rt, name)?;
    let doc = doc_in(rt, &text)?;
    let read = since(rt, &start)?;
    let start = Instant::now(rt)?;
    let neq = neq_of(rt.alloc(), &doc)?;
    let recover = since(rt, &start)?;
    if !is_quiet {
        println!(rt; "read {read} recover {recover}")?;
    }
    Ok(neq)
}

/// The steps of a SINEX file, and those of its normal equations once more together.
pub fn file_steps<R: Threads + Sync + Clock + Files + Print + AllocGlobal>(
    rt: &R,
    name: &str,
    is_quiet: bool,
) -> Result<()> {
    let neq = recovered(rt, name, is_quiet)?;
    neq_steps(rt, &neq, is_quiet)
}

/// The steps of each SINEX file of a combination before it is added to the stack: reading and recovery, a line for each.
pub fn combination_steps<R: Threads + Sync + Clock + Files + Print + AllocGlobal>(
    rt: &R,
    names: &[String],
) -> Result<()> {
    for name in names {
        let _neq = recovered(rt, name.as_str(), false)?;
    }
    Ok(())
}
