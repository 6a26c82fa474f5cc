// The logic function over a block's words.
ghost use Rattle.std.specs.Prelude.{◌≡◌, ◌≤◌};
ghost use Rattle.quiet.specs.Words.{mixed_at};
ghost use Rattle.block.specs.Inner.Each.{at, Each};
ghost use Rattle.block.specs.Inner.Terms.{terms, joined};
ghost use Rattle.block.specs.Inner.Ignores.{Ignores};

use crate::each::each;
use crate::types::{Needs, Terms, Words};

// Bit i of the function, spread over a word, is what the sources' setting i gives.
// `word::logic` spreads the bits likewise, but chooses by them where these are added up: eight words are all they share.
pub fn terms(function: u16) -> Terms
    ensures { result ≡ terms function }
{
    let m0 = function % 2 * 65535;
    let m1 = function / 2 % 2 * 65535;
    let m2 = function / 4 % 2 * 65535;
    let m3 = function / 8 % 2 * 65535;
    let m4 = function / 16 % 2 * 65535;
    let m5 = function / 32 % 2 * 65535;
    let m6 = function / 64 % 2 * 65535;
    let m7 = function / 128 % 2 * 65535;
    Terms {
        none: m0,
        c: m0 ^ m1,
        b: m0 ^ m2,
        bc: (m0 ^ m1) ^ (m2 ^ m3),
        a: m0 ^ m4,
        ac: (m0 ^ m1) ^ (m4 ^ m5),
        ab: (m0 ^ m2) ^ (m4 ^ m6),
        abc: ((m0 ^ m1) ^ (m2 ^ m3)) ^ ((m4 ^ m5) ^ (m6 ^ m7)),
    }
}

fn joined(by: Terms, a: u16, b: u16, c: u16) -> u16
    ensures { result ≡ joined by a b c }
{
    (by.none ^ (c & by.c) ^ (b & (by.b ^ (c & by.bc))))
        ^ (a & (by.a ^ (c & by.ac) ^ (b & (by.ab ^ (c & by.abc)))))
}

// A source that the function ignores isn't read. B's words stand where the mix goes. Of one source: the word that nought
// makes, turned over where the source's bits are 1.
pub fn mix(function: u16, need: Needs, n: usize, a: &Words, c: &Words, o: &mut Words)
    requires { Ignores function need × (n ≤ 80) }
    ensures { Each n o.new (mixed_at function (at a.now) (at o.old) (at c.now)) }
{
    let by = terms(function);
    if (need.b & (need.a | need.c)) | (need.a & need.c) {
        each(n, |i, b| joined(by, a[i], b, c[i]), o);
    } else if need.b {
        each(n, |_, b| by.none ^ (b & by.b), o);
    } else if need.a {
        each(n, |i, _| by.none ^ (a[i] & by.a), o);
    } else {
        each(n, |i, _| by.none ^ (c[i] & by.c), o);
    }
}
