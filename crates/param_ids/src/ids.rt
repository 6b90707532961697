//! Names of parameters.

use crate::texts::{code_of, kind_of, point_of, soln_of};
use snx_epoch::{Epoch, EpochFault, read_epoch};
use snx_lines::{Line, field};
use std::marker::Model;
use thiserror::Error;

/// The name of a parameter. Texts stand at the left, with blanks behind them. Names go by their fields in this order, by bytes.
#[derive(Clone, Copy, Debug, PartialEq, Eq, PartialOrd, Ord)]
pub struct ParamId {
    /// The type of the parameter, as `STAX  `.
    pub kind: [u8; 6],
    /// The code of the site.
    pub code: [u8; 4],
    /// The point of the site.
    pub point: [u8; 2],
    /// The solution; a number has no leading zeros.
    pub soln: [u8; 4],
    /// The moment of the parameter.
    pub epoch: Epoch,
}

impl Model for ParamId {
    ghost use Rattle.snx_epoch.specs.Moments.{IsMoment};
    ghost use Rattle.param_ids.specs.Plain.{PlainId};

    ghost Value = { PlainId };

    ghost view = { λ id. record { kind = id.kind; code = id.code; point = id.point; soln = id.soln; epoch = id.epoch } };

    ghost invariant = { λ id. IsMoment id.epoch };

    ghost inverse = { λ id. record { kind = id.kind; code = id.code; point = id.point; soln = id.soln; epoch = id.epoch } };
}

/// Why a row has no name.
#[derive(Clone, Copy, Debug, PartialEq, Eq, Error)]
pub enum IdFault {
    /// The type is empty, or a byte of a text is not from 32 to 126.
    #[error("a text that no name may have")]
    Field,
    /// The moment.
    #[error("{0}")]
    Epoch(EpochFault),
}

impl ParamId {
    ghost use Rattle.std.specs.Prelude.{◌≡◌};
    ghost use Rattle.param_ids.specs.Ids.{IsNamed, IsReadAs};

    /// The name of a type, a code, a point, a solution and a moment, each a text without blanks at its ends.
    ///
    /// # Errors
    ///
    /// Field where `kind_of`, `code_of`, `point_of` or `soln_of` gives none, then the fault of the moment.
    pub fn named(
        kind: &[u8],
        code: &[u8],
        point: &[u8],
        soln: &[u8],
        epoch: &[u8],
    ) -> Result<ParamId, IdFault>
        ensures { IsNamed kind.now code.now point.now soln.now epoch.now result }
    {
        let Some(kind) = kind_of(kind) else {
            return Err(IdFault::Field);
        };
        let Some(code) = code_of(code) else {
            return Err(IdFault::Field);
        };
        let Some(point) = point_of(point) else {
            return Err(IdFault::Field);
        };
        let Some(soln) = soln_of(soln) else {
            return Err(IdFault::Field);
        };
        match read_epoch(epoch) {
            Ok(epoch) => Ok(ParamId {
                kind,
                code,
                point,
                soln,
                epoch,
            }),
            Err(fault) => Err(IdFault::Epoch(fault)),
        }
    }

    /// The name on a row, of columns 8 to 39.
    ///
    /// # Errors
    ///
    /// Field, then the fault of the moment.
    pub fn read(line: &Line) -> Result<ParamId, IdFault>
        ensures { IsReadAs line.now.text.now result }
    {
        ParamId::named(
            field(line, 8, 13),
            field(line, 15, 18),
            field(line, 20, 21),
            field(line, 23, 26),
            field(line, 28, 39),
        )
    }
}
