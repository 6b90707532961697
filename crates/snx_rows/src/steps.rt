//! The fields of a row, each with its cause.

ghost use Rattle.std.specs.Prelude.{◌≡◌};
ghost use Rattle.snx_rows.specs.Rows.{name_cause, IsIndexOn, IsNameOn, IsUnitOn, IsNumber, IsValueOn, IsSized, IsDeviation, IsDeviationOn, not_negative};

use crate::causes::Cause;
use crate::indices::read_index;
use crate::rows::Shape;
use decimal_e::{Dec, DecFault, read_dec};
use param_ids::{IdFault, ParamId, unit_of};
use snx_lines::{Line, field};

/// The index of a row.
pub(crate) fn index_on(line: &Line) -> Result<u32, Cause>
    ensures { IsIndexOn line.now.text.now result }
{
    match read_index(line) {
        Some(index) => Ok(index),
        None => Err(Cause::Index),
    }
}

/// The cause that a fault of a name is.
fn name_cause(fault: IdFault) -> Cause
    ensures { result ≡ name_cause fault }
{
    match fault {
        IdFault::Field => Cause::Field,
        IdFault::Epoch(fault) => Cause::Epoch(fault),
    }
}

/// The name of a row.
pub(crate) fn name_on(line: &Line) -> Result<ParamId, Cause>
    ensures { IsNameOn line.now.text.now result }
{
    match ParamId::read(line) {
        Ok(id) => Ok(id),
        Err(fault) => Err(name_cause(fault)),
    }
}

/// The unit of a row.
pub(crate) fn unit_on(line: &Line) -> Result<[u8; 4], Cause>
    ensures { IsUnitOn line.now.text.now result }
{
    match unit_of(field(line, 41, 44)) {
        Some(unit) => Ok(unit),
        None => Err(Cause::Field),
    }
}

/// The number that a text writes.
///
/// # Errors
///
/// Number with what `read_dec` finds wrong.
pub fn number_in(text: &[u8]) -> Result<Dec, Cause>
    ensures { IsNumber text.now result }
{
    match read_dec(text) {
        Ok(number) => Ok(number),
        Err(fault) => Err(Cause::Number(fault)),
    }
}

/// The value of a row.
pub(crate) fn value_on(line: &Line) -> Result<Dec, Cause>
    ensures { IsValueOn line.now.text.now result }
{
    number_in(field(line, 48, 68))
}

/// The value, if it has a size that rows of this shape may have.
pub(crate) fn sized(shape: Shape, value: Dec) -> Result<Dec, Cause>
    ensures { IsSized shape value result }
{
    match shape {
        Shape::Value => {
            if value.is_modest() {
                Ok(value)
            } else {
                Err(Cause::Size)
            }
        }
        Shape::Vector => Ok(value),
    }
}

/// A deviation that is not below zero.
fn not_negative(deviation: Dec) -> Result<Option<Dec>, Cause>
    ensures { result ≡ not_negative deviation }
{
    if deviation.is_negative() {
        Err(Cause::Number(DecFault::Char { at: 0 }))
    } else {
        Ok(Some(deviation))
    }
}

/// The standard deviation that a text writes; none where it is empty.
fn deviation_in(text: &[u8]) -> Result<Option<Dec>, Cause>
    ensures { IsDeviation text.now result }
{
    if text.is_empty() {
        return Ok(None);
    }
    match number_in(text) {
        Ok(deviation) => not_negative(deviation),
        Err(cause) => Err(cause),
    }
}

/// The standard deviation of a row; none where rows of this shape have no such columns.
pub(crate) fn deviation_on(shape: Shape, line: &Line) -> Result<Option<Dec>, Cause>
    ensures { IsDeviationOn shape line.now.text.now result }
{
    match shape {
        Shape::Value => deviation_in(field(line, 70, 80)),
        Shape::Vector => Ok(None),
    }
}
