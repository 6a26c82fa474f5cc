// Rows that start evenly apart: where the first and the last lie inside memory and don't go round, so do all between.
ghost use Rattle.std.specs.Prelude.{◌≡◌, true, ◌-◌, ◌*◌, ◌<◌, ◌≤◌};
ghost use Rattle.word.specs.Pointer.{pointer_end, next_row};
ghost use Rattle.word.specs.Inner.Even.{RowsInside, SpanInside};

use crate::pointer::{DOWNWARD, POINTER_END};
use crate::types::{Direction, Pointer};

// A row's width and its rows are plain numbers, as the definitions take them: direction, width, modulo, rows, pointer.

// The words of memory that a pointer reaches.
fn reached(n: usize) -> u32
    ensures { (result ≤ n) × (result ≤ pointer_end) }
{
    if n < (POINTER_END as usize) {
        return n as u32;
    }
    POINTER_END
}

// How far above a row's start the next row starts, modulo 262,144; it is the same for every row.
pub fn stride(direction: Direction, width: u32, modulo: u32) -> u32
    requires { width ≤ 64 }
    ensures { (result ≡ (next_row direction width modulo (record { word = 0 })).word) × (result < pointer_end) }
{
    let start = Pointer { word: 0 };
    let next = start.next_row(direction, width, modulo);
    next.word
}

// How far from the first row the last one starts, each so many words from the one before it.
pub fn distance(rows: u32, words: u32) -> u32
    requires { (1 ≤ rows) × (rows ≤ 1024) × (words ≤ pointer_end) }
    ensures { (result ≡ (rows - 1) * words) × (result ≤ 268173312) }
{
    (rows - 1) * words
}

// A row ascending ends above its start, a row descending below it.
fn span_inside(n: u32, direction: Direction, width: u32, lowest: u32, highest: u32) -> bool
    requires { (width ≤ 64) × (lowest < pointer_end) × (highest ≤ 268435456) }
    ensures { result ≡ true → SpanInside n direction width lowest highest }
{
    match direction {
        Direction::Ascending => highest + width <= n,
        Direction::Descending => {
            if n <= highest {
                return false;
            }
            width <= lowest + 1
        }
    }
}

// No pointer leaves memory of 262,144 words, and a row of one word doesn't go round.
pub fn evenly_inside(
    n: usize,
    direction: Direction,
    width: u32,
    modulo: u32,
    rows: u32,
    pointer: Pointer,
) -> bool
    requires { (pointer.word < pointer_end) × (1 ≤ width) × (width ≤ 64) }
    ensures { result ≡ true → RowsInside n direction width modulo rows pointer }
{
    if ((POINTER_END as usize) <= n) & (width == 1) {
        return true;
    }
    if rows < 1 {
        return false;
    }
    if 1024 < rows {
        return false;
    }
    let end = reached(n);
    let start = pointer.word;
    let words = stride(direction, width, modulo);
    if words < DOWNWARD {
        let far = distance(rows, words);
        return span_inside(end, direction, width, start, start + far);
    }
    let far = distance(rows, POINTER_END - words);
    if start < far {
        return false;
    }
    span_inside(end, direction, width, start - far, start)
}
