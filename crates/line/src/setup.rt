// What a line is set up with, and its first dot, decoded once from the register file.
ghost use Rattle.std.specs.Prelude.{◌≡◌};
ghost use Rattle.line.specs.Setup.{octant, gains, line_setup};
ghost use Rattle.line.specs.Dot.{first_dot};

use crate::types::{Dot, Gains, Line, Octant, Spot};
use word::bits::is_set;

fn octant(con1: u16) -> Octant
    ensures { result ≡ octant con1 }
{
    Octant {
        sud: is_set(con1, 4),
        sul: is_set(con1, 3),
        aul: is_set(con1, 2),
    }
}

fn gains(file: &[u16]) -> Gains
    ensures { result ≡ gains file.now }
{
    let a = word::memory::read(file, file::MODULO_A);
    let b = word::memory::read(file, file::MODULO_B);
    Gains { a, b }
}

pub fn line_setup(file: &[u16]) -> Line
    ensures { result ≡ line_setup file.now }
{
    let con0 = word::memory::read(file, file::CONTROL_0);
    let con1 = word::memory::read(file, file::CONTROL_1);
    let data = word::memory::read(file, file::SOURCE_A);
    let mask = word::memory::read(file, file::FIRST_MASK);
    let texture = word::memory::read(file, file::SOURCE_B);
    let modulo = word::memory::read(file, file::MODULO_C);
    let function = word::control::function(con0);
    let octant = octant(con1);
    let row = word::pointer::half(modulo);
    let gains = gains(file);
    Line {
        a: data & mask,
        texture,
        function,
        sing: is_set(con1, 1),
        octant,
        row,
        gains,
    }
}

pub fn first_dot(file: &[u16]) -> Dot
    ensures { result ≡ first_dot file.now }
{
    let con0 = word::memory::read(file, file::CONTROL_0);
    let con1 = word::memory::read(file, file::CONTROL_1);
    let at = file::pointer_at(file, file::POINTER_C);
    let shift = word::control::shift(con0);
    let spot = Spot { at, shift };
    let bit = word::control::shift(con1);
    let accumulator = word::memory::read(file, file::POINTER_A + 1);
    Dot {
        spot,
        bit,
        accumulator,
        sign: is_set(con1, 6),
        first: true,
    }
}
