//! Names by their places, and refusals under names.

ghost use Rattle.std.specs.Prelude.{◌≡◌};
ghost use Rattle.neq_stack.specs.Systems.{name_at};
ghost use Rattle.information_tables.specs.Parts.{IsNamedRefusal};

use inv_enclose::InvError;
use named_tables::{RecoverError, RecoverFault};
use param_ids::{Names, ParamId};
use snx_epoch::Epoch;

/// The name at a place, counted from 0; past the last a name of zeros.
fn name_at(names: &Names, place: usize) -> ParamId
    ensures { result ≡ name_at names.now place }
{
    if place < names.len() {
        return *names.at(place);
    }
    ParamId {
        kind: [0; 6],
        code: [0; 4],
        point: [0; 2],
        soln: [0; 4],
        epoch: Epoch::Never,
    }
}

/// The refusal of an inverse, under the names of its places.
pub fn by_name(names: &Names, refusal: InvError) -> RecoverError
    ensures { IsNamedRefusal names.now refusal result }
{
    match refusal {
        InvError::Range { row, col } => RecoverError::Fault(RecoverFault::Range {
            row: name_at(names, row),
            col: name_at(names, col),
        }),
        InvError::Pivot { row } => RecoverError::Fault(RecoverFault::Pivot {
            id: name_at(names, row),
        }),
        InvError::Condition { col } => RecoverError::Fault(RecoverFault::Condition {
            id: name_at(names, col),
        }),
        InvError::Residual { row, size } => RecoverError::Fault(RecoverFault::Residual {
            id: name_at(names, row),
            size,
        }),
        InvError::Defect { row, parts } => RecoverError::Fault(RecoverFault::Defect {
            id: name_at(names, row),
            parts,
        }),
        InvError::Memory => RecoverError::Memory,
    }
}
