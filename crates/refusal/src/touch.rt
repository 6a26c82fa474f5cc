// The words that a channel would touch, found row by row: the first and last word of a row tell for the row.
ghost use Rattle.std.specs.Prelude.{◌≡◌, ◌<◌, ◌≤◌};
ghost use Rattle.word.specs.Pointer.{pointer_end};
ghost use Rattle.line.specs.Inner.Walk.{dot_of};
ghost use Rattle.refusal.specs.Touch.{row_touches, touches, line_touches, leaves, channel_leaves};

use crate::types::Channel;
use line::marks::Mark;
use line::types::{Dot, Line};
use word::pointer::POINTER_END;
use word::types::{Direction, Pointer};

// A memory of fewer words than a pointer reaches is a number like any other: who asks has compared it.
impl Channel {
    // A row leaves memory of fewer words than a pointer reaches where its far end does, or where it goes round.
    fn row_leaves(self, n: u32, here: Pointer) -> bool
        requires { (n < pointer_end) × (here.word < pointer_end) }
        ensures { result ≡ leaves n (row_touches self.direction self.width here) }
    {
        match self.direction {
            Direction::Ascending => n < here.word + self.width,
            Direction::Descending => {
                if n <= here.word {
                    return true;
                }
                here.word + 1 < self.width
            }
        }
    }

    fn rows_leave(self, n: u32) -> bool
        requires { n < pointer_end }
        ensures { result ≡ leaves n (touches self.direction self.width self.modulo self.rows self.pointer) }
    {
        let mut here = self.pointer;
        for row in 0..self.rows {
            if self.row_leaves(n, here) {
                return true;
            }
            here = here.next_row(self.direction, self.width, self.modulo);
        }
        false
    }

    // Rows whose first and last one lie inside are found inside at once. Put where it is called, as no channel has to be
    // laid into memory for the call then: a blit of 64 rows of 20 words costs some 80 instructions less.
    #[inline(always)]
    pub(crate) fn leaves(self, n: usize) -> bool
        requires { n < pointer_end }
        ensures { result ≡ channel_leaves n self.direction self.used self.width self.modulo self.rows self.pointer }
    {
        if !self.used {
            return false;
        }
        if word::even::evenly_inside(
            n,
            self.direction,
            self.width,
            self.modulo,
            self.rows,
            self.pointer,
        ) {
            return false;
        }
        self.rows_leave(n as u32)
    }
}

fn dots_leave(n: u32, line: Line, dots: u32, first: Mark) -> bool
    ensures { result ≡ leaves n (line_touches line dots (dot_of first)) }
{
    let by = line::walk::steps(line);
    let mut mark = first;
    for dot in 0..dots {
        if n <= line::walk::word_of(mark) {
            return true;
        }
        mark = line::walk::walked(by, mark);
    }
    false
}

// Memory as long as a pointer reaches is left by no dot.
pub fn line_leaves(n: usize, line: Line, dots: u32, first: Dot) -> bool
    requires { (first.spot.at.word < pointer_end) × (first.spot.shift < 16) × (first.bit < 16) }
    ensures { result ≡ leaves n (line_touches line dots first) }
{
    if (POINTER_END as usize) <= n {
        return false;
    }
    let mark = line::walk::mark_of(first);
    dots_leave(n as u32, line, dots, mark)
}
