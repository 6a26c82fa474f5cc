// The way from dot to dot. A dot's place is one number, 16 pixels a word, so that where the shift wraps the pointer moves by
// itself; what the two moves come to, and what the accumulator gains, is worked out once for each sign.
ghost use Rattle.std.specs.Prelude.{◌≡◌, ◌+◌, ◌/◌, ◌%◌, ◌≤◌, if◌then◌else◌};
ghost use Rattle.word.specs.Pointer.{pointer_end};
ghost use Rattle.line.specs.Texture.{lower};
ghost use Rattle.line.specs.Accumulator.{sign_of};
ghost use Rattle.line.specs.Inner.Walk.{pixel_end, pixel_of, dot_of, mark_of, vertical_pixels, horizontal_pixels};
ghost use Rattle.line.specs.Inner.Walk.{sometimes_pixels, always_pixels, steps, step_by, walked};

use crate::marks::{Mark, Step, Steps};
use crate::types::{Dot, Line, Spot};
use word::pointer::POINTER_END;
use word::types::Pointer;

// The pixels of all words that a pointer reaches.
pub const PIXEL_END: u32 = 16 * POINTER_END;

// Down adds a row, up takes it away.
fn vertical_pixels(row: u32, upward: bool) -> u32
    ensures { (result ≡ vertical_pixels row upward) × (result ≤ pixel_end) }
{
    let down = row % POINTER_END * 16;
    if upward {
        return PIXEL_END - down;
    }
    down
}

fn horizontal_pixels(leftward: bool) -> u32
    ensures { (result ≡ horizontal_pixels leftward) × (result ≤ pixel_end) }
{
    if leftward {
        return PIXEL_END - 1;
    }
    1
}

// A move's pixels: vertical ones up or down, horizontal ones left or right.
fn move_pixels(row: u32, vertical: bool, back: bool) -> u32
    ensures { (result ≡ (if vertical then vertical_pixels row back else horizontal_pixels back)) × (result ≤ pixel_end) }
{
    if vertical {
        return vertical_pixels(row, back);
    }
    horizontal_pixels(back)
}

pub fn sometimes_pixels(line: Line) -> u32
    ensures { (result ≡ sometimes_pixels line) × (result ≤ pixel_end) }
{
    move_pixels(line.row, line.octant.sud, line.octant.sul)
}

fn always_pixels(line: Line) -> u32
    ensures { (result ≡ always_pixels line) × (result ≤ pixel_end) }
{
    move_pixels(line.row, !line.octant.sud, line.octant.aul)
}

// The always move is made whatever the sign, the sometimes move where it is 0. With SUD 0 the always move is vertical, with
// SUD 1 the sometimes move.
pub fn steps(line: Line) -> Steps
    ensures { result ≡ steps line }
{
    let always = always_pixels(line);
    let sometimes = sometimes_pixels(line);
    let clear = Step {
        pixels: sometimes + always,
        gain: line.gains.a,
        vertical: true,
    };
    let set = Step {
        pixels: always,
        gain: line.gains.b,
        vertical: !line.octant.sud,
    };
    Steps { clear, set }
}

fn step_by(steps: Steps, sign: bool) -> Step
    ensures { result ≡ step_by steps sign }
{
    if sign {
        return steps.set;
    }
    steps.clear
}

// Past the last pixel the first one comes again.
pub fn pixels_on(pixel: u32, pixels: u32) -> u32
    ensures { result ≡ (pixel + pixels) % pixel_end }
{
    (pixel % PIXEL_END + pixels % PIXEL_END) % PIXEL_END
}

fn gained(accumulator: u16, gain: u16) -> u16
    ensures { result ≡ (accumulator + gain) % 65536 }
{
    accumulator.wrapping_add(gain)
}

fn sign_of(accumulator: u16) -> bool
    ensures { result ≡ sign_of accumulator }
{
    word::bits::is_set(accumulator, 15)
}

fn lower(bit: u32) -> u32
    ensures { result ≡ lower bit }
{
    (bit % 16 + 15) % 16
}

// The mark after this one.
pub fn walked(steps: Steps, mark: Mark) -> Mark
    ensures { result ≡ walked (step_by steps mark.sign) mark }
{
    let step = step_by(steps, mark.sign);
    let pixel = pixels_on(mark.pixel, step.pixels);
    let bit = lower(mark.bit);
    let accumulator = gained(mark.accumulator, step.gain);
    let sign = sign_of(accumulator);
    Mark {
        pixel,
        bit,
        accumulator,
        sign,
        first: step.vertical,
    }
}

// The word where a mark stands, and how far right in it.
pub fn word_of(mark: Mark) -> u32
    ensures { result ≡ mark.pixel / 16 % pointer_end }
{
    mark.pixel / 16 % POINTER_END
}

pub fn shift_of(mark: Mark) -> u32
    ensures { result ≡ mark.pixel % 16 }
{
    mark.pixel % 16
}

fn pixel_of(spot: Spot) -> u32
    ensures { result ≡ pixel_of spot }
{
    spot.at.word % POINTER_END * 16 + spot.shift % 16
}

// A dot's mark, and a mark's dot.
pub fn mark_of(dot: Dot) -> Mark
    ensures { result ≡ mark_of dot }
{
    let pixel = pixel_of(dot.spot);
    Mark {
        pixel,
        bit: dot.bit,
        accumulator: dot.accumulator,
        sign: dot.sign,
        first: dot.first,
    }
}

pub fn dot_of(mark: Mark) -> Dot
    ensures { result ≡ dot_of mark }
{
    let word = word_of(mark);
    let shift = shift_of(mark);
    let at = Pointer { word };
    let spot = Spot { at, shift };
    Dot {
        spot,
        bit: mark.bit % 16,
        accumulator: mark.accumulator,
        sign: mark.sign,
        first: mark.first,
    }
}
