// Where a word of a row lies, so many words into it, and rows that lie as one row would.
ghost use Rattle.std.specs.Prelude.{◌≡◌, true, ◌*◌, ◌<◌, ◌≤◌};
ghost use Rattle.word.specs.Pointer.{pointer_end};
ghost use Rattle.block.specs.Inner.Place.{place_in, Reaches, Gapless, Lies, AsLying};

use crate::types::{Course, Size};
use word::pointer::INDEX_END;
use word::types::Direction;

pub fn place(direction: Direction, start: usize, word: usize) -> usize
    requires { Reaches direction start word }
    ensures { result ≡ place_in direction start word }
{
    match direction {
        Direction::Ascending => start + word,
        Direction::Descending => start - word,
    }
}

// Whether each row begins where the one before it ends, and none of their words goes round.
fn together(n: usize, direction: Direction, course: Course, size: Size) -> bool
    requires { (course.from < pointer_end) × (course.far < pointer_end) × (size.width ≤ 64) × (size.height * size.width ≤ 64) }
    ensures { result ≡ true → Gapless n direction size.width course.far course.from (size.height * size.width) }
{
    let words = size.height * size.width;
    match direction {
        Direction::Ascending => (course.far == size.width) & (course.from + words <= n),
        Direction::Descending => {
            (course.far + size.width == INDEX_END) & (words <= course.from + 1)
        }
    }
}

// Rows without a gap are one row.
pub fn as_lying(n: usize, direction: Direction, course: Course, size: Size) -> Size
    requires { (n ≤ pointer_end) × (course.from < pointer_end) × (course.far < pointer_end)
        × (1 ≤ size.height * size.width) × (size.height * size.width ≤ 64) }
    ensures { Lies n direction course.far course.from size → AsLying n direction course.far course.from size result }
{
    if size.height == 1 {
        return size;
    }
    if together(n, direction, course, size) {
        let width = size.height * size.width;
        return Size { width, height: 1 };
    }
    size
}
