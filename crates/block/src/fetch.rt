// A block's words fetched from memory row by row; no row goes round.
ghost use Rattle.std.specs.Prelude.{◌≡◌, ◌+◌, ◌-◌, ◌*◌, ◌<◌, ◌≤◌, length};
ghost use Rattle.word.specs.Inner.Even.{RowInside};
ghost use Rattle.block.specs.Inner.Each.{Each, Laid};
ghost use Rattle.block.specs.Inner.Place.{Lies, fetched_in, fetched_at};

use crate::types::{Course, Size, Words};
use word::pointer::INDEX_END;
use word::types::Direction;

// Memory, the rows that are fetched from it and the array for them are three things: none is another's part.
fn row(direction: Direction, ram: &[u16], start: usize, width: usize, s: usize, x: &mut Words)
    requires { RowInside (length ram.now) direction width (record { word = start }) × (s + width ≤ 80) }
    ensures { Laid s width x.new x.old (fetched_in direction ram.now start) }
{
    for i in 0..width {
        x[s + i] = ram[crate::place::place(direction, start, i)];
    }
}

// Inlined, so that what is known of the width and the direction tells here.
#[inline(always)]
fn each_row(direction: Direction, ram: &[u16], course: Course, size: Size, x: &mut Words)
    requires { Lies (length ram.now) direction course.far course.from size }
    ensures { Each (size.height * size.width) x.new (fetched_at direction size.width course.far course.from ram.now) }
{
    let mut start = course.from;
    for number in 0..size.height {
        row(direction, ram, start, size.width, number * size.width, x);
        start = (start + course.far) % INDEX_END;
    }
}

// A width that the compiler knows makes a row one move.
#[inline(never)]
fn narrow_rows(direction: Direction, ram: &[u16], course: Course, size: Size, x: &mut Words)
    requires { Lies (length ram.now) direction course.far course.from size × (size.width < 4) }
    ensures { Each (size.height * size.width) x.new (fetched_at direction size.width course.far course.from ram.now) }
{
    match size.width {
        1 => each_row(direction, ram, course, Size { width: 1, ..size }, x),
        2 => each_row(direction, ram, course, Size { width: 2, ..size }, x),
        _ => each_row(direction, ram, course, Size { width: 3, ..size }, x),
    }
}

#[inline(always)]
pub fn rows(direction: Direction, ram: &[u16], course: Course, size: Size, x: &mut Words)
    requires { Lies (length ram.now) direction course.far course.from size }
    ensures { Each (size.height * size.width) x.new (fetched_at direction size.width course.far course.from ram.now) }
{
    if size.width < 4 {
        narrow_rows(direction, ram, course, size, x);
    } else {
        each_row(direction, ram, course, size, x);
    }
}

// The last of those words alone.
pub fn last_word(direction: Direction, ram: &[u16], course: Course, size: Size) -> u16
    requires { Lies (length ram.now) direction course.far course.from size × (1 ≤ size.height) }
    ensures { result ≡ fetched_at direction size.width course.far course.from ram.now (size.height * size.width - 1) }
{
    let start = (course.from + (size.height - 1) * course.far) % INDEX_END;
    ram[crate::place::place(direction, start, size.width - 1)]
}
