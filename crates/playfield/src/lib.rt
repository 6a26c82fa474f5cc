// The colour numbers of a line: plane by plane each word's bits are laid from the delay on. No word is shifted: a delay
// of nought is a place like the others.
#![tactic(auto)]

pub mod types;

ghost use Rattle.std.specs.Prelude.{◌≡◌, ◌+◌, ◌-◌, ◌*◌, ◌^◌, ◌<◌, ◌≤◌, length};
ghost use Rattle.word.specs.Word.{bit};
ghost use Rattle.playfield.specs.Playfield.{most_words, most_delay, playfield, plane_delay};
ghost use Rattle.playfield.specs.Inner.Numbers.{room, Drawable, word_pixel, words_pixel, Grown, UpTo, Numbered};

use crate::types::{Numbers, Playfield};

// The number with one bit set.
fn one_bit(place: usize) -> u16
    requires { place < 16 }
    ensures { result ≡ 2 ^ place }
{
    1 << place
}

// Plane 1, which is an odd one, stands at place 0.
fn delay(odd: usize, even: usize, place: usize) -> usize
    ensures { result ≡ plane_delay odd even (place + 1) }
{
    if place % 2 == 0 {
        return odd;
    }
    even
}

// What a word's pixel adds to its colour number. The leftmost pixel is bit 15.
fn share(word: u16, pixel: usize, weight: u16) -> u16
    requires { pixel < 16 }
    ensures { result ≡ bit word (15 - pixel) * weight }
{
    if word & one_bit(15 - pixel) == 0 {
        return 0;
    }
    weight
}

// The sixteen pixels of a word, from pixel s on. What a delay pushes past the line's end has its place behind the line.
fn lay_word(word: u16, weight: u16, s: usize, numbers: &mut Numbers)
    requires { (weight ≤ 16) × (s + 16 ≤ room) × UpTo 31 numbers.old }
    ensures { Grown weight (word_pixel word s 16) numbers.old numbers.new }
{
    for pixel in 0..16 {
        let at = s + pixel;
        numbers[at] += share(word, pixel, weight);
    }
}

fn lay_plane(
    ram: &[u16],
    start: usize,
    words: usize,
    delay: usize,
    weight: u16,
    numbers: &mut Numbers,
)
    requires { (start + words ≤ length ram.now) × (words ≤ most_words) × (delay ≤ most_delay) × (weight ≤ 16)
        × UpTo 15 numbers.old }
    ensures { Grown weight (words_pixel ram.now start delay words)
        numbers.old numbers.new }
{
    for word in 0..words {
        lay_word(ram[start + word], weight, delay + 16 * word, numbers);
    }
}

// The planes one after the other, plane 1 first, which is the lowest bit of the colour number.
pub fn lay_planes(ram: &[u16], field: Playfield, numbers: &mut Numbers)
    requires { Drawable (length ram.now) (playfield field.planes.now field.words field.odd field.even)
        × UpTo 0 numbers.old }
    ensures { Numbered ram.now (playfield field.entry.planes.now field.entry.words field.entry.odd field.entry.even)
        (length field.entry.planes.now) numbers.new }
{
    for place in 0..field.planes.len() {
        let start = field.planes[place] as usize;
        let by = delay(field.odd, field.even, place);
        let weight = one_bit(place);
        lay_plane(ram, start, field.words, by, weight, numbers);
    }
}
