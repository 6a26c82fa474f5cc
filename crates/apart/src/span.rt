// Where a channel's rows lie, if all are inside memory and none goes round: the lowest word and the highest.
ghost use Rattle.std.specs.Prelude.{◌≡◌, Some, ◌+◌, ◌*◌, ◌<◌, ◌≤◌};
ghost use Rattle.word.specs.Pointer.{pointer_end};
ghost use Rattle.apart.specs.Inner.Spans.{Span, below, Sized, Spans};

use crate::types::Span;
use block::types::{Course, Size};
use word::pointer::{INDEX_DOWNWARD, INDEX_END};
use word::types::Direction;

// How far a row reaches below its first word.
fn below(direction: Direction, width: usize) -> usize
    requires { 1 ≤ width }
    ensures { (result ≡ below direction width) × (result < width) }
{
    match direction {
        Direction::Ascending => 0,
        Direction::Descending => width - 1,
    }
}

// The words from so many under a place to so many over it; none where they don't lie inside memory.
fn around(n: usize, from: usize, under: usize, over: usize) -> Option<Span>
    requires { (from < pointer_end) × (over ≤ 1024 * pointer_end + 64) }
    ensures { (span : Span) → result ≡ Some span
        → (span.low + under ≡ from) × (span.high ≡ from + over) × (span.high < n) }
{
    if from < under {
        return None;
    }
    if n <= from + over {
        return None;
    }
    Some(Span {
        low: from - under,
        high: from + over,
    })
}

// Rows go up or down from the first: the first and the last tell of all.
pub fn span(n: usize, direction: Direction, size: Size, course: Course) -> Option<Span>
    requires { Sized n size × (course.from < pointer_end) × (course.far < pointer_end) }
    ensures { (span : Span) → result ≡ Some span → Spans n direction size course span }
{
    let back = below(direction, size.width);
    let on = size.width - 1 - back;
    if course.far < INDEX_DOWNWARD {
        return around(n, course.from, back, (size.height - 1) * course.far + on);
    }
    let fall = INDEX_END - course.far;
    around(n, course.from, (size.height - 1) * fall + back, on)
}
