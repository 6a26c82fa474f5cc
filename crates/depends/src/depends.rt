// The sources that a logic function depends on, read from the table.
ghost use Rattle.std.specs.Prelude.{◌≡◌};
ghost use Rattle.depends.specs.Depends.{depends};

use crate::table;
use crate::types::Depends;

pub fn depends(function: u16) -> Depends
    ensures { result ≡ depends function }
{
    let found = table::entry(function);
    Depends {
        a: found / 4 % 2 == 1,
        b: found / 2 % 2 == 1,
        c: found % 2 == 1,
    }
}
