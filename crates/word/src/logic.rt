// The logic function, on all sixteen bits at once.
ghost use Rattle.std.specs.Prelude.{◌≡◌};
ghost use Rattle.word.specs.Logic.{logic};

// The sources' words are three numbers, as in the function's formula: a struct of them would only be taken apart here.
// Bit i of the function, spread over a word, is what the sources' setting i gives; bit by bit c, then b, then a picks
// one of two.
pub fn logic(function: u16, a: u16, b: u16, c: u16) -> u16
    ensures { result ≡ logic function a b c }
{
    let m0 = function % 2 * 65535;
    let m1 = function / 2 % 2 * 65535;
    let m2 = function / 4 % 2 * 65535;
    let m3 = function / 8 % 2 * 65535;
    let m4 = function / 16 % 2 * 65535;
    let m5 = function / 32 % 2 * 65535;
    let m6 = function / 64 % 2 * 65535;
    let m7 = function / 128 % 2 * 65535;
    let x0 = m0 ^ (c & (m0 ^ m1));
    let x1 = m2 ^ (c & (m2 ^ m3));
    let x2 = m4 ^ (c & (m4 ^ m5));
    let x3 = m6 ^ (c & (m6 ^ m7));
    let y0 = x0 ^ (b & (x0 ^ x1));
    let y1 = x2 ^ (b & (x2 ^ x3));
    y0 ^ (a & (y0 ^ y1))
}
