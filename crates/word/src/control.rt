// What the bits of BLTCON0 and BLTCON1 say, each decoded here and nowhere else.
ghost use Rattle.std.specs.Prelude.{◌≡◌};
ghost use Rattle.word.specs.Control.{shift, uses, function, exclusive_fill, inclusive_fill};
ghost use Rattle.word.specs.Control.{carry_in, descending, line};

use crate::bits::is_set;
use crate::types::Uses;

// The shift of A by BLTCON0, of B by BLTCON1.
pub fn shift(control: u16) -> u32
    ensures { result ≡ shift control }
{
    (control / 4096 % 16) as u32
}

pub fn uses(con0: u16) -> Uses
    ensures { result ≡ uses con0 }
{
    Uses {
        a: is_set(con0, 11),
        b: is_set(con0, 10),
        c: is_set(con0, 9),
        d: is_set(con0, 8),
    }
}

pub fn function(con0: u16) -> u16
    ensures { result ≡ function con0 }
{
    con0 % 256
}

pub fn exclusive_fill(con1: u16) -> bool
    ensures { result ≡ exclusive_fill con1 }
{
    is_set(con1, 4)
}

pub fn inclusive_fill(con1: u16) -> bool
    ensures { result ≡ inclusive_fill con1 }
{
    is_set(con1, 3)
}

pub fn carry_in(con1: u16) -> u16
    ensures { result ≡ carry_in con1 }
{
    con1 / 4 % 2
}

pub fn descending(con1: u16) -> bool
    ensures { result ≡ descending con1 }
{
    is_set(con1, 1)
}

pub fn line(con1: u16) -> bool
    ensures { result ≡ line con1 }
{
    is_set(con1, 0)
}
