//! How long the steps of a solve take, in milliseconds, for a table, for a file or for the files of a combination, and how long the
//! combined file of a table takes.
//!
//! The words are `table ROWS` or `file NAME`, and `quiet` after them for no times; `inverse ROWS` for the enclosed inverse of the
//! table; `combine NAME ..` for reading and recovering each of some files; `write ROWS` for writing the combined file of a stack with
//! the table, in microseconds, or `stack ROWS` for making that stack alone. The table is strongly diagonal and made from a fixed
//! sequence, and its entries are intervals of width 1: the table of `bench/kernels.cpp`. The scripts in `bench/` start this program.
#![tactic(auto)]

mod calls;
mod made;
mod steps;
mod tables;
mod writing;

use crate::steps::{combination_steps, file_steps, inverse_steps, table_steps};
use crate::writing::writing_steps;
use anyhow::{Result, bail};
use std::env;

fn main(rt: HostRuntime) -> Result<()> {
    let words: Vec<String> = env::args(&rt)?.collect(rt.alloc())?;
    let [_, what, names @ ..] = words.as_slice() else {
        bail!(
            "the words are `table ROWS`, `inverse ROWS`, `write ROWS`, `stack ROWS`, `file NAME` or `combine NAME ..`"
        );
    };
    let [of, rest @ ..] = names else {
        bail!("a second word is missing");
    };
    let is_quiet = !rest.is_empty();
    match what.as_str() {
        "inverse" => inverse_steps(&rt, of.parse()?),
        "table" => table_steps(&rt, of.parse()?, is_quiet),
        "file" => file_steps(&rt, of.as_str(), is_quiet),
        "combine" => combination_steps(&rt, names),
        "write" => writing_steps(&rt, of.parse()?, true),
        "stack" => writing_steps(&rt, of.parse()?, false),
        _ => bail!("the first word is another"),
    }
}
