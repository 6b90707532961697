//! Writing the combined file of a stack that is made.

ghost use Rattle.std.specs.Prelude.{◌≡◌, All, length};
ghost use Rattle.bounds_report.specs.Printing.{HasSmallDeviation};
ghost use Rattle.snx_epoch.specs.Moments.{IsMoment};
ghost use Rattle.neq_stack.specs.Neqs.{IsSound, neq_view};

use crate::made::{numbers_of, sites_of, stack_of};
use anyhow::{Result, bail};
use bounds_report::Printed;
use control_doc::{Control, alone};
use neq_stack::Neq;
use site_merge::Sites;
use snx_write::combined;
use std::time::{Clock, Instant};

/// Writes the combined file, and says its microseconds and its bytes.
fn written<R: Clock + Print + AllocGlobal>(
    rt: &R,
    control: &Control,
    sites: &Sites,
    free: &Neq<16>,
    rows: &[Printed],
) -> Result<()>
    requires created { IsMoment control.now.created }
    requires sound { IsSound (neq_view free.now) }
    requires rows { length rows.now ≡ length free.now.names }
    requires small { All HasSmallDeviation rows.now }
{
    let start = Instant::now(rt)?;
    let text = combined(rt.alloc(), control, &["made.snx"], sites, free, rows)?;
    let micros = start.elapsed(rt)?.as_micros();
    println!(rt; "micros {micros} bytes {}", text.len())?;
    Ok(())
}

/// Makes a stack with its printed numbers and sites, and writes its combined file where that is asked for.
pub fn writing_steps<R: Clock + Print + AllocGlobal>(
    rt: &R,
    rows: usize,
    is_written: bool,
) -> Result<()> {
    if rows == 0 || rows > 1000 {
        bail!("the number of rows is from 1 to 1,000");
    }
    let alloc = rt.alloc();
    let free = stack_of(alloc, rows)?;
    let numbers = numbers_of(alloc, rows)?;
    let sites = sites_of(alloc, rows / 3)?;
    let control = alone(alloc, "made.snx")?;
    if is_written {
        written(rt, &control, &sites, &free, &numbers)?;
    }
    Ok(())
}
