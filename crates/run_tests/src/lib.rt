//! Tests of whole runs, of what no clause of `run` says. The library has no call.
#![tactic(auto)]

#[cfg(test)]
mod tests;
