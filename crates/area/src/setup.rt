// What a blit doesn't change, decoded once from the register file.
ghost use Rattle.std.specs.Prelude.{◌≡◌};
ghost use Rattle.area.specs.Setup.{shifts, direction, fill, masks, modulos, setup};

use crate::types::{Masks, Modulos, Setup, Shifts};
use word::types::{Direction, Fill};

fn shifts(con0: u16, con1: u16) -> Shifts
    ensures { result ≡ shifts con0 con1 }
{
    let a = word::control::shift(con0);
    let b = word::control::shift(con1);
    Shifts { a, b }
}

pub fn direction(con1: u16) -> Direction
    ensures { result ≡ direction con1 }
{
    if word::control::descending(con1) {
        return Direction::Descending;
    }
    Direction::Ascending
}

fn fill(con1: u16) -> Fill
    ensures { result ≡ fill con1 }
{
    if word::control::exclusive_fill(con1) {
        return Fill::Exclusive;
    }
    if word::control::inclusive_fill(con1) {
        return Fill::Inclusive;
    }
    Fill::Off
}

// `line::setup::gains` reads two other registers into another type: one function of both would be no shorter.
fn masks(file: &[u16]) -> Masks
    ensures { result ≡ masks file.now }
{
    let first = word::memory::read(file, file::FIRST_MASK);
    let last = word::memory::read(file, file::LAST_MASK);
    Masks { first, last }
}

pub fn modulos(file: &[u16]) -> Modulos
    ensures { result ≡ modulos file.now }
{
    let a = word::pointer::half(word::memory::read(file, file::MODULO_A));
    let b = word::pointer::half(word::memory::read(file, file::MODULO_B));
    let c = word::pointer::half(word::memory::read(file, file::MODULO_C));
    let d = word::pointer::half(word::memory::read(file, file::MODULO_D));
    Modulos { a, b, c, d }
}

pub fn setup(file: &[u16]) -> Setup
    ensures { result ≡ setup file.now }
{
    let con0 = word::memory::read(file, file::CONTROL_0);
    let con1 = word::memory::read(file, file::CONTROL_1);
    let uses = word::control::uses(con0);
    let modulos = modulos(file);
    let masks = masks(file);
    let shifts = shifts(con0, con1);
    let direction = direction(con1);
    let fill = fill(con1);
    let function = word::control::function(con0);
    let carry = word::control::carry_in(con1);
    Setup {
        uses,
        modulos,
        masks,
        shifts,
        function,
        direction,
        fill,
        carry,
    }
}
