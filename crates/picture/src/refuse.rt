// What refuses a line of picture, but for memory's size and the register file.
ghost use Rattle.std.specs.Prelude.{◌≡◌, ◌+◌, length};
ghost use Rattle.word.specs.Choice.{every};
ghost use Rattle.playfield.specs.Playfield.{playfield};
ghost use Rattle.picture.specs.Refusal.{bad, bad_playfield, inside};

use playfield::types::Playfield;

pub const MOST_PLANES: usize = 5;

pub const MOST_WORDS: usize = 40;

pub const MOST_DELAY: usize = 15;

fn bad(number: usize, most: usize) -> bool
    ensures { result ≡ bad number most }
{
    (number == 0) | (most < number)
}

pub fn bad_playfield(field: Playfield) -> bool
    ensures { result ≡ bad_playfield (playfield field.entry.planes.now field.entry.words field.entry.odd field.entry.even) }
{
    bad(field.planes.len(), MOST_PLANES)
        | bad(field.words, MOST_WORDS)
        | (MOST_DELAY < field.odd)
        | (MOST_DELAY < field.even)
}

// The word behind a plane's last. The sum is taken in 64 bits: nothing goes round.
fn end(start: u32, words: u32) -> usize
    ensures { result ≡ start + words }
{
    start as usize + words as usize
}

// Every plane's words lie in memory of n words; each plane has as many.
pub fn all_inside(n: usize, planes: &[u32], words: u32) -> bool
    ensures { result ≡ every (inside n words planes.now) (length planes.now) }
{
    let mut fine = true;
    for start in planes {
        fine &= end(*start, words) <= n;
    }
    fine
}
