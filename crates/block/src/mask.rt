// A's masks: the first word of each row, and the last.
ghost use Rattle.std.specs.Prelude.{◌≡◌, ℕ, ◌+◌, ◌-◌, ◌*◌, ◌<◌, ◌≤◌, length, get_or};
ghost use Rattle.quiet.specs.Words.{masked_at};
ghost use Rattle.block.specs.Inner.Each.{at, Each, masked_in};

use crate::types::{Size, Words};
use area::types::Masks;

// Its promise tells that what stands in an array are words.
pub fn first_word(x: &[u16])
    requires { 1 ≤ length x.now }
    ensures { (j : ℕ) → get_or x.now j 0 < 65536 }
{
    let _first = x[0];
}

// The first word of a row and its last, which may be the same.
fn mask_row(masks: Masks, s: usize, width: usize, x: &mut Words)
    requires { (1 ≤ width) × (s + width ≤ 80) }
    ensures { x.new ≡ masked_in (s + width - 1) masks.last (masked_in s masks.first x.old) }
{
    x[s] &= masks.first;
    x[s + width - 1] &= masks.last;
}

// Masks of all ones leave A as it is.
pub fn mask(masks: Masks, size: Size, x: &mut Words)
    requires { (1 ≤ size.width) × (size.height * size.width ≤ 64) }
    ensures { Each (size.height * size.width) x.new (masked_at masks size.width (at x.old)) }
{
    if (masks.first == 65535) & (masks.last == 65535) {
        first_word(x);
        return;
    }
    for row in 0..size.height {
        let start = row * size.width;
        mask_row(masks, start, size.width, x);
    }
}
