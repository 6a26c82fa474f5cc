// The shift of a block's words: the first with the word before the block, each other with the one before it.
ghost use Rattle.std.specs.Prelude.{◌≡◌, true, ℕ, ◌+◌, ◌<◌, ◌≤◌};
ghost use Rattle.word.specs.Shift.{shifted};
ghost use Rattle.quiet.specs.Words.{shifted_at};
ghost use Rattle.block.specs.Inner.Each.{at, Each};

use crate::types::Words;
use word::types::Direction;

// A shift is a plain number below 16, as the definition takes it.
// The pair's sixteen bits from two words: ascending, this one's high bits, and above them the earlier one's low bits. By
// nought the earlier word gives none, for it goes up sixteen places in two steps. Descending the same the other way.
fn drawn(direction: Direction, by: u32, earlier: u16, this: u16) -> u16
    requires { by < 16 }
    ensures { result ≡ shifted direction by earlier this }
{
    match direction {
        Direction::Ascending => (this >> by) + ((earlier << 1) << (15 - by)),
        Direction::Descending => (this << by) + ((earlier >> 1) >> (15 - by)),
    }
}

// The whole array: both arrays stand in one struct, where a copy of so many words would be a call of `memmove`, which the
// archive needs for nothing else.
#[tactic(auto, unfolding(crate::specs::Inner::Each::Each, crate::specs::Inner::Each::at))]
pub fn copied(n: usize, x: &Words, y: &mut Words)
    requires { n ≤ 80 }
    ensures { Each n y.new (at x.now) }
{
    *y = *x;
}

// A shift by nought leaves every word as it is, whatever stands before it.
pub fn unmoved(direction: Direction, by: u32, earlier: u16, x: &Words)
    requires { by ≡ 0 }
    ensures { (n : ℕ) → Each n x.now (shifted_at direction by earlier (at x.now)) }
{
    crate::mask::first_word(x);
}

// A source that the function ignores stays unshifted.
pub fn shift(
    need: bool,
    direction: Direction,
    by: u32,
    n: usize,
    earlier: u16,
    x: &Words,
    y: &mut Words,
)
    requires { (by < 16) × (n ≤ 64) }
    ensures { need ≡ true → Each (n + 1) y.new (shifted_at direction by earlier (at x.now)) }
{
    if !need {
        return;
    }
    if by == 0 {
        unmoved(direction, by, earlier, x);
        copied(n + 1, x, y);
        return;
    }
    y[0] = drawn(direction, by, earlier, x[0]);
    for i in 0..n {
        y[i + 1] = drawn(direction, by, x[i], x[i + 1]);
    }
}
