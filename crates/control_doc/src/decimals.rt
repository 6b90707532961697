//! Weights and standard deviations.

ghost use Rattle.std.specs.Prelude.{◌≡◌, true, false, IfSome, IfNone, Ok, codes};
ghost use Rattle.toml.specs.Data.{get_member};
ghost use Rattle.toml.specs.View.{view, table_view};
ghost use Rattle.decimal_e.specs.Decimals.{Decimal};
ghost use Rattle.decimal_e.specs.Answers.{IsAnswer};
ghost use Rattle.control_doc.specs.Control as spec;
ghost use Rattle.control_doc.specs.Faults.{key_path};
ghost use Rattle.control_doc.specs.Views.{Answers};

use crate::faults::{ControlCause, ControlError};
use crate::keys::{fault_at, value_at};
use decimal_e::{Dec, read_dec};
use std::alloc::Global;
use toml::{Table, Value};

/// Whether a decimal is positive and has at most 9 digits.
fn is_positive_and_short(d: &Dec) -> bool
    ensures { result ≡ spec.is_positive_and_short d.now }
{
    let mant = d.mant();
    0 < mant && mant < 1_000_000_000
}

#[tactic(auto, using(crate::proofs::Shorts::not_short, crate::proofs::Shorts::no_decimal))]
/// The decimal that a text writes, if it is positive and has at most 9 digits.
fn decimal_of(text: &[u8]) -> Option<Dec>
    ensures some { IfSome result (λ d. IsAnswer text.now (Ok d) × (spec.is_positive_and_short d ≡ true)) }
    ensures none { IfNone result ((d : Decimal) → IsAnswer text.now (Ok d) → spec.is_positive_and_short d ≡ false) }
{
    match read_dec(text) {
        Ok(d) => {
            if is_positive_and_short(&d) {
                Some(d)
            } else {
                None
            }
        }
        Err(_) => None,
    }
}

fn decimal_in(alloc: Global, path: &str, key: &str, text: &str) -> Result<Dec, ControlError>
    ensures { Answers (λ d. d) (spec.IsDecimalIn (key_path path.now key.now) text.now) result }
{
    match decimal_of(text.as_bytes()) {
        Some(d) => Ok(d),
        None => Err(fault_at(alloc, ControlCause::Value, path, key)),
    }
}

#[tactic(auto, using(crate::proofs::Shorts::decimal_text, crate::proofs::Shorts::decimal_kind))]
fn decimal_at(alloc: Global, path: &str, key: &str, value: &Value) -> Result<Dec, ControlError>
    ensures { Answers (λ d. d) (spec.IsDecimalAt (key_path path.now key.now) (view value.now)) result }
{
    match value.as_str() {
        Some(text) => decimal_in(alloc, path, key, text),
        None => Err(fault_at(alloc, ControlCause::Kind, path, key)),
    }
}

#[tactic(auto, using(crate::proofs::Shorts::one_is, crate::proofs::Shorts::one_not_none))]
/// The number one.
pub(crate) fn one() -> Dec
    ensures { result ≡ spec.one }
{
    match Dec::new(1, 0) {
        Some(d) => d,
        None => unreachable!(),
    }
}

/// The weight of a file.
pub(crate) fn weight(alloc: Global, path: &str, table: &Table) -> Result<Dec, ControlError>
    ensures { Answers (λ d. d) (spec.IsWeight (key_path path.now (codes "weight")) (get_member (codes "weight") (table_view table.now))) result }
{
    match value_at(table, "weight") {
        Some(value) => decimal_at(alloc, path, "weight", value),
        None => Ok(one()),
    }
}

#[tactic(auto, using(crate::proofs::Shorts::sigma_given, crate::proofs::Shorts::sigma_refused))]
/// A standard deviation of the datum's rows.
pub(crate) fn sigma(alloc: Global, table: &Table, key: &str) -> Result<Option<Dec>, ControlError>
    ensures { Answers (λ sigma. sigma) (spec.IsSigma (key_path (codes "datum") key.now) (get_member key.now (table_view table.now))) result }
{
    let Some(value) = value_at(table, key) else {
        return Ok(None);
    };
    match decimal_at(alloc, "datum", key, value) {
        Ok(d) => Ok(Some(d)),
        Err(error) => Err(error),
    }
}
