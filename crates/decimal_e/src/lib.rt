//! Decimals, as SINEX files write them: exact, and canonical.
#![tactic(auto)]

mod cut;
mod dec;
mod digits;
mod product;
mod read;
mod scale;
mod sizes;

pub use dec::{Dec, one_canonical, one_form};
pub use product::{one_times, same_values};
pub use read::{DecFault, one_answer, one_numeral, read_dec};
pub use scale::{ceil_at, floor_at, holds_value, interval_at};

#[cfg(test)]
mod tests;
