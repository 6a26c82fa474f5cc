// A block's words stored in memory row by row; no row goes round.
ghost use Rattle.std.specs.Prelude.{◌≡◌, ◌+◌, ◌*◌, ◌<◌, ◌≤◌, length};
ghost use Rattle.word.specs.Inner.Even.{RowInside};
ghost use Rattle.quiet.specs.Stream.{laid_at};
ghost use Rattle.block.specs.Inner.Each.{at, from_at};
ghost use Rattle.block.specs.Inner.Place.{place_in, place_at, Lies};

use crate::types::{Course, Size, Words};
use word::pointer::INDEX_END;
use word::types::Direction;

fn row(direction: Direction, ram: &mut [u16], start: usize, width: usize, s: usize, x: &Words)
    requires { RowInside (length ram.old) direction width (record { word = start }) × (s + width ≤ 80) }
    ensures { ram.new
        ≡ laid_at (place_in direction start) (from_at s x.now) width ram.old }
{
    for i in 0..width {
        ram[crate::place::place(direction, start, i)] = x[s + i];
    }
}

// Inlined, so that what is known of the width and the direction tells here.
#[inline(always)]
fn each_row(direction: Direction, ram: &mut [u16], course: Course, size: Size, x: &Words)
    requires { Lies (length ram.old) direction course.far course.from size }
    ensures { ram.new
        ≡ laid_at (place_at direction size.width course.far course.from) (at x.now) (size.height * size.width) ram.old }
{
    let mut start = course.from;
    for number in 0..size.height {
        row(direction, ram, start, size.width, number * size.width, x);
        start = (start + course.far) % INDEX_END;
    }
}

// A width that the compiler knows makes a row one move.
fn narrow_rows(direction: Direction, ram: &mut [u16], course: Course, size: Size, x: &Words)
    requires { Lies (length ram.old) direction course.far course.from size × (size.width < 4) }
    ensures { ram.new
        ≡ laid_at (place_at direction size.width course.far course.from) (at x.now) (size.height * size.width) ram.old }
{
    match size.width {
        1 => each_row(direction, ram, course, Size { width: 1, ..size }, x),
        2 => each_row(direction, ram, course, Size { width: 2, ..size }, x),
        _ => each_row(direction, ram, course, Size { width: 3, ..size }, x),
    }
}

#[inline(always)]
pub fn rows(direction: Direction, ram: &mut [u16], course: Course, size: Size, x: &Words)
    requires { Lies (length ram.old) direction course.far course.from size }
    ensures { ram.new
        ≡ laid_at (place_at direction size.width course.far course.from) (at x.now) (size.height * size.width) ram.old }
{
    if size.width < 4 {
        narrow_rows(direction, ram, course, size, x);
    } else {
        each_row(direction, ram, course, size, x);
    }
}
