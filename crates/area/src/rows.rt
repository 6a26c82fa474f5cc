// The start of a row.
ghost use Rattle.std.specs.Prelude.{◌≡◌};
ghost use Rattle.area.specs.With.{with_carry};

use crate::types::{Flow, Setup};

// The carry starts at carry-in on every row.
pub fn row_start(setup: Setup, flow: Flow) -> Flow
    ensures { result ≡ with_carry setup.carry flow }
{
    Flow {
        carry: setup.carry,
        ..flow
    }
}
