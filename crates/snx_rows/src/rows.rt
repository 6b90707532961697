//! Rows of parameters.

ghost use Rattle.snx_lines.specs.Views.{line_view};
ghost use Rattle.snx_rows.specs.Rows.{IsRead, IsRow, OneRow};

use crate::causes::{Cause, LineFault};
use crate::steps::{deviation_on, index_on, name_on, sized, unit_on, value_on};
use decimal_e::Dec;
use param_ids::ParamId;
use snx_lines::Line;

/// Which rules a row follows.
#[derive(Clone, Copy, Debug, PartialEq, Eq)]
pub enum Shape {
    /// An estimate or an a priori value: at most 10^12 in size, and with a standard deviation or none.
    Value,
    /// A number of a normal equation's right side: of any size, and without a standard deviation.
    Vector,
}

/// A row of a block: a parameter and its number there.
#[derive(Clone, Copy, Debug)]
pub struct Row {
    /// The index by which matrices call the row, from 1 to 99999.
    pub index: u32,
    /// The name of the parameter.
    pub id: ParamId,
    /// The unit of the parameter, with blanks behind it.
    pub unit: [u8; 4],
    /// The number.
    pub value: Dec,
    /// Its standard deviation, if there is one.
    pub dev: Option<Dec>,
    /// The number of the line in the text, from 1.
    pub line: u32,
}

/// What a line says as a row, or the first cause for which it says nothing.
pub(crate) fn row_on(shape: Shape, line: &Line) -> Result<Row, Cause>
    ensures { IsRead shape (line_view line.now) result }
{
    let index = index_on(line)?;
    let id = name_on(line)?;
    let unit = unit_on(line)?;
    let value = value_on(line)?;
    let value = sized(shape, value)?;
    let dev = deviation_on(shape, line)?;
    Ok(Row {
        index,
        id,
        unit,
        value,
        dev,
        line: line.number,
    })
}

/// The row that a line of data is.
///
/// # Errors
///
/// The first cause, with the number of the line: the index, the name, the unit, the value, its size, the standard deviation.
pub fn read_row(line: &Line, shape: Shape) -> Result<Row, LineFault>
    ensures { IsRow shape (line_view line.now) result }
{
    match row_on(shape, line) {
        Ok(row) => Ok(row),
        Err(cause) => Err(LineFault {
            line: line.number,
            cause,
        }),
    }
}

/// A line is one row at most or has one fault, and never both.
pub fn one_row()
    ensures { OneRow }
{}
