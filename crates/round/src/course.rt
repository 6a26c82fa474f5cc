// A line's C, dot by dot; at once where its dots can't come near an end of memory.
ghost use Rattle.std.specs.Prelude.{◌≡◌, ◌*◌, ◌<◌, ◌≤◌, if◌then◌else◌};
ghost use Rattle.line.specs.Inner.Walk.{pixel_end, spot_of, dot_of};
ghost use Rattle.round.specs.Between.{any_round, went_round};
ghost use Rattle.round.specs.Line.{vertical_moves, horizontal_moves, sometimes_moves, always_moves, dot_moves, line_moves};
ghost use Rattle.round.specs.Inner.Ranges.{LineRange};
ghost use Rattle.round.specs.Inner.Reach.{reach};

use line::marks::Mark;
use line::types::{Dot, Line};
use line::walk::PIXEL_END;
use word::pointer::{DOWNWARD, POINTER_END};
use word::types::Pointer;

// A pixel is a plain number, as in the definitions: that it is below the end holds of each by a modulo.
fn vertical_round(row: u32, upward: bool, pixel: u32) -> bool
    requires { pixel < pixel_end }
    ensures { result ≡ any_round (vertical_moves row upward (spot_of pixel)) }
{
    let at = Pointer {
        word: pixel / 16 % POINTER_END,
    };
    if upward {
        let made = at.minus(row);
        return made.round;
    }
    let made = at.plus(row);
    made.round
}

// The pointer moves where the shift wraps, and goes round at the first or the last pixel of all.
fn horizontal_round(leftward: bool, pixel: u32) -> bool
    requires { pixel < pixel_end }
    ensures { result ≡ any_round (horizontal_moves leftward (spot_of pixel)) }
{
    if leftward {
        return pixel < 1;
    }
    PIXEL_END - 1 <= pixel
}

// One move: a vertical one up or down, a horizontal one left or right.
fn move_round(row: u32, vertical: bool, back: bool, pixel: u32) -> bool
    requires { pixel < pixel_end }
    ensures { result ≡ any_round (if vertical then vertical_moves row back (spot_of pixel) else horizontal_moves back (spot_of pixel)) }
{
    if vertical {
        return vertical_round(row, back, pixel);
    }
    horizontal_round(back, pixel)
}

fn sometimes_round(line: Line, pixel: u32) -> bool
    requires { pixel < pixel_end }
    ensures { result ≡ any_round (sometimes_moves line (spot_of pixel)) }
{
    move_round(line.row, line.octant.sud, line.octant.sul, pixel)
}

fn always_round(line: Line, pixel: u32) -> bool
    requires { pixel < pixel_end }
    ensures { result ≡ any_round (always_moves line (spot_of pixel)) }
{
    move_round(line.row, !line.octant.sud, line.octant.aul, pixel)
}

// Each move by itself: the sometimes move, where the sign is 0, then the always move from where that led.
fn dot_round(line: Line, sign: bool, pixel: u32) -> bool
    requires { pixel < pixel_end }
    ensures { result ≡ any_round (dot_moves line sign (spot_of pixel)) }
{
    if sign {
        return always_round(line, pixel);
    }
    if sometimes_round(line, pixel) {
        return true;
    }
    let moved = line::walk::pixels_on(pixel, line::walk::sometimes_pixels(line));
    always_round(line, moved)
}

// Behind the last dot no move counts.
fn dots_round(line: Line, dots: u32, first: Mark) -> bool
    requires { (first.pixel < pixel_end) × (1 ≤ dots) }
    ensures { result ≡ went_round (line_moves line dots (dot_of first)) }
{
    let by = line::walk::steps(line);
    let mut mark = first;
    for dot in 1..dots {
        if dot_round(line, mark.sign, mark.pixel) {
            return true;
        }
        mark = line::walk::walked(by, mark);
    }
    false
}

// How far the next dot may be, in pixels.
fn reach(row: u32) -> u32
    ensures { (result ≡ reach row) × (result ≤ 2097153) }
{
    let by = row % POINTER_END;
    if DOWNWARD <= by {
        return 16 * (POINTER_END - by) + 1;
    }
    16 * by + 1
}

// How far all dots may come.
fn farthest(row: u32, dots: u32) -> u32
    requires { dots ≤ 1024 }
    ensures { (result ≡ dots * reach row) × (result ≤ 2147484672) }
{
    dots * reach(row)
}

fn by_dots(line: Line, dots: u32, first: Dot) -> bool
    requires { LineRange dots first }
    ensures { result ≡ went_round (line_moves line dots first) }
{
    let mark = line::walk::mark_of(first);
    dots_round(line, dots, mark)
}

pub fn course_round(line: Line, dots: u32, first: Dot) -> bool
    requires { LineRange dots first }
    ensures { result ≡ went_round (line_moves line dots first) }
{
    let mark = line::walk::mark_of(first);
    let pixel = mark.pixel;
    let far = farthest(line.row, dots);
    if (far <= pixel) & (pixel + far < PIXEL_END) {
        return false;
    }
    by_dots(line, dots, first)
}
