// Whether a function gives the same for any A, for any B, for any C: bit 4a + 2b + c is the same for both a, b, c.
ghost use Rattle.std.specs.Prelude.{◌≡◌, ◌<◌};
ghost use Rattle.block.specs.Inner.Ignores.{differs, needed};

use crate::types::Needs;

// Whether bits of the function differ from those that stand so far above them.
fn differs(function: u16, by: u16, shown: u16) -> bool
    requires { 0 < by }
    ensures { result ≡ differs function by shown }
{
    (function / by) & shown != function & shown
}

pub fn needs(function: u16) -> Needs
    ensures { result ≡ needed function }
{
    Needs {
        a: differs(function, 16, 0x0F),
        b: differs(function, 4, 0x33),
        c: differs(function, 2, 0x55),
    }
}
