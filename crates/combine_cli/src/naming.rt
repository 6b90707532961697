//! Names by their places.

ghost use Rattle.std.specs.Prelude.{◌≡◌};
ghost use Rattle.neq_stack.specs.Systems.{name_at};

use param_ids::{Names, ParamId};
use snx_epoch::Epoch;

// The name of row k, counted from 0.
pub fn name_at(names: &Names, k: usize) -> ParamId
    ensures { result ≡ name_at names.now k }
{
    if k < names.len() {
        return *names.at(k);
    }
    ParamId {
        kind: [0; 6],
        code: [0; 4],
        point: [0; 2],
        soln: [0; 4],
        epoch: Epoch::Never,
    }
}
