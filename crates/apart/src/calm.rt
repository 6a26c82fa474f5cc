// How many rows at a time a source may be fetched before D stores any of them.
ghost use Rattle.std.specs.Prelude.{◌≡◌, true, ◌<◌, ◌≤◌};
ghost use Rattle.word.specs.Pointer.{pointer_end};
ghost use Rattle.apart.specs.Inner.Spans.{Sized, Ahead, Calm, Told, course};

use crate::types::Span;
use area::types::Setup;
use block::types::{Course, Size};
use word::pointer::{INDEX_DOWNWARD, INDEX_END};
use word::types::{Direction, Pointer};

// One goes along with another, rows a step apart and none over the next: at the other or behind it it never meets it,
// ahead of it by so many steps it may be done so many rows at a time.
fn ahead(width: usize, step: usize, behind: usize, front: usize, most: usize) -> usize
    requires { 1 ≤ width }
    ensures { (result ≤ most) × (1 ≤ result → Ahead width step behind front result) }
{
    if INDEX_DOWNWARD <= step {
        return 0;
    }
    if step < width {
        return 0;
    }
    if front <= behind {
        return most;
    }
    most.min((front - behind) / step)
}

// Where their words lie apart altogether no row is too many; else D must go along with the source, upward or downward.
fn calm(setup: Setup, size: Size, d: Span, x: Span, to: Course, of: Course, most: usize) -> usize
    requires { (1 ≤ size.width) × (of.far < pointer_end) }
    ensures { (result ≤ most) × (1 ≤ result → Calm setup.direction size d x to of result) }
{
    if x.high < d.low {
        return most;
    }
    if d.high < x.low {
        return most;
    }
    if to.far != of.far {
        return 0;
    }
    match setup.direction {
        Direction::Ascending => ahead(size.width, of.far, of.from, to.from, most),
        Direction::Descending => ahead(size.width, INDEX_END - of.far, to.from, of.from, most),
    }
}

// The rows of a source; where it is used they lie inside memory, and where D is too they are apart from D's.
pub fn source_rows(
    n: usize,
    setup: Setup,
    size: Size,
    d: Span,
    to: Course,
    used: bool,
    pointer: Pointer,
    far: usize,
    most: usize,
) -> usize
    requires { Sized n size × (pointer.word < pointer_end) × (far < pointer_end) }
    ensures { (result ≤ most) × (1 ≤ result → used ≡ true → Told n setup size d to (course pointer far) result) }
{
    if !used {
        return most;
    }
    let of = Course {
        from: pointer.word as usize,
        far,
    };
    match crate::span::span(n, setup.direction, size, of) {
        None => 0,
        Some(x) => {
            if setup.uses.d {
                return calm(setup, size, d, x, to, of, most);
            }
            most
        }
    }
}
