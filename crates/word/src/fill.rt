// The fill of one word.
ghost use Rattle.std.specs.Prelude.{◌≡◌};
ghost use Rattle.word.specs.declared.types.Fill.TheVariants.{Exclusive};
ghost use Rattle.word.specs.Fill.{exclusive, filled};

use crate::types::{Fill, Filled};

// Each bit becomes the XOR of all the bits up to it, by four doublings; a carry turns them all over.
fn exclusive(start: u16, this: u16) -> u16
    ensures { result ≡ exclusive start this }
{
    let x1 = this ^ (this << 1);
    let x2 = x1 ^ (x1 << 2);
    let x4 = x2 ^ (x2 << 4);
    let x8 = x4 ^ (x4 << 8);
    x8 ^ (start % 2 * 65535)
}

// The carry that an exclusively filled word hands on is its bit 15.
fn exclusively(start: u16, this: u16) -> Filled
    ensures { result ≡ filled Exclusive start this }
{
    let word = exclusive(start, this);
    Filled {
        word,
        carry: word / 32768,
    }
}

// An inclusive fill hands the same carry on.
pub fn filled(fill: Fill, start: u16, this: u16) -> Filled
    ensures { result ≡ filled fill start this }
{
    match fill {
        Fill::Off => Filled {
            word: this,
            carry: start,
        },
        Fill::Inclusive => {
            let made = exclusively(start, this);
            Filled {
                word: made.word | this,
                ..made
            }
        }
        Fill::Exclusive => exclusively(start, this),
    }
}
