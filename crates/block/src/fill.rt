// The fill of a block's rows: every word filled by itself, then the carries along each row.
ghost use Rattle.std.specs.Prelude.{◌≡◌, ℕ, ◌+◌, ◌-◌, ◌*◌, ◌/◌, ◌<◌, ◌≤◌, get_or};
ghost use Rattle.word.specs.declared.types.Fill.TheVariants.{Exclusive};
ghost use Rattle.word.specs.Fill.{exclusive};
ghost use Rattle.quiet.specs.Words.{filled_at};
ghost use Rattle.block.specs.Inner.Each.{at, Each, filled_word_at};
ghost use Rattle.block.specs.Inner.Carry.{RowFilled, RowsFilled};

use crate::each::each;
use crate::types::{Size, Words};
use word::types::Fill;

// A word filled exclusively from nought.
fn prefix(this: u16) -> u16
    ensures { result ≡ exclusive 0 this }
{
    word::fill::filled(Fill::Exclusive, 0, this).word
}

// The next word's carry is the top bit.
fn spread(word: u16) -> u16
    ensures { result ≡ word / 32768 * 65535 }
{
    word / 32768 * 65535
}

// A carry turns a whole word over.
fn carry_row(start: u16, width: usize, s: usize, q: &mut Words) -> u16
    requires { s + width ≤ 80 }
    ensures { RowFilled start width s width result q.new q.old }
{
    let mut over = start % 2 * 65535;
    for i in 0..width {
        let word = q[s + i] ^ over;
        q[s + i] = word;
        over = spread(word);
    }
    over
}

// Each row's carry starts at carry-in.
fn carry_rows(start: u16, size: Size, q: &mut Words) -> u16
    requires { (1 ≤ size.width) × (size.height * size.width ≤ 64) }
    ensures { RowsFilled start size.width (size.height * size.width) (size.height * size.width) result q.new q.old }
{
    let mut over = 0;
    for row in 0..size.height {
        over = carry_row(start, size.width, row * size.width, q);
    }
    over
}

// The words filled exclusively stand in q; the answer is the last carry. Never inlined, for `fill` is, at more than one
// place.
#[inline(never)]
fn exclusive(start: u16, size: Size, o: &Words, q: &mut Words) -> u16
    requires { (1 ≤ size.width) × (1 ≤ size.height * size.width) × (size.height * size.width ≤ 64) }
    ensures { Each (size.height * size.width) q.new (filled_word_at Exclusive start size.width (at o.now))
        × (result ≡ (filled_at Exclusive start size.width (at o.now) (size.height * size.width - 1)).carry)
        × ((j : ℕ) → get_or o.now j 0 < 65536) }
{
    crate::mask::first_word(o);
    let all = (size.height * size.width + 7) / 8 * 8;
    each(all, |i, _| prefix(o[i]), q);
    let over = carry_rows(start, size, q);
    over % 2
}

// Without fill the words stay as they are; an inclusive fill sets the bits of both. The answer is the last word's carry.
// Inlined, so that a block without fill calls nothing: by a call a word of a copy costs 7.8 instructions, so 7.65.
#[inline(always)]
pub fn fill(kind: Fill, start: u16, size: Size, o: &mut Words, q: &mut Words) -> u16
    requires { (1 ≤ size.width) × (1 ≤ size.height * size.width) × (size.height * size.width ≤ 64) }
    ensures { Each (size.height * size.width) o.new (filled_word_at kind start size.width (at o.old))
        × (result ≡ (filled_at kind start size.width (at o.old) (size.height * size.width - 1)).carry) }
{
    match kind {
        Fill::Off => start,
        Fill::Inclusive => {
            let carry = exclusive(start, size, o, q);
            each(size.height * size.width, |i, word| q[i] | word, o);
            carry
        }
        Fill::Exclusive => {
            let carry = exclusive(start, size, o, q);
            crate::shift::copied(size.height * size.width, q, o);
            carry
        }
    }
}
