// All dots of a line, each stored before the next is fetched.
ghost use Rattle.std.specs.Prelude.{◌≡◌, ◌+◌, ◌<◌};
ghost use Rattle.word.specs.Pointer.{pointer_end};
ghost use Rattle.line.specs.Line.{state, dot_stored, one_dot, begun, line_blit};
ghost use Rattle.line.specs.Inner.Walk.{dot_of, drawn_of, steps};

use line::marks::{Mark, Marked, Steps};
use line::types::{Dot, Drawn, Line};

// The dot stored, if it is.
fn dot_stored(ram: &mut [u16], line: Line, here: Marked) -> Marked
    requires { here.stored < 4294967295 }
    ensures { (result.mark ≡ here.mark)
        × (state ram.new (drawn_of result) ≡ dot_stored line (state ram.old (drawn_of here))) }
{
    let mark = here.mark;
    if line::word_of_dot::is_stored(line, mark) {
        let place = line::walk::word_of(mark);
        let word = line::word_of_dot::dot_word(line, mark, word::memory::read(ram, place));
        word::memory::write(ram, place, word);
        return Marked {
            allzero: here.allzero & (word == 0),
            stored: here.stored + 1,
            ..here
        };
    }
    here
}

fn one_dot(ram: &mut [u16], line: Line, by: Steps, here: Marked) -> Marked
    requires { (by ≡ steps line) × (here.stored < 4294967295) }
    ensures { state ram.new (drawn_of result) ≡ one_dot line (state ram.old (drawn_of here)) }
{
    let drawn = dot_stored(ram, line, here);
    Marked {
        mark: line::walk::walked(by, drawn.mark),
        ..drawn
    }
}

// All dots, from a mark on.
fn all_dots(ram: &mut [u16], line: Line, by: Steps, dots: u32, first: Mark) -> Marked
    requires { (by ≡ steps line) × (dots < 4294967295) }
    ensures { state ram.new (drawn_of result)
        ≡ line_blit line dots (state ram.old (begun (dot_of first))) }
{
    let mut so_far = Marked {
        mark: first,
        allzero: true,
        stored: 0,
    };
    for done in 0..dots {
        so_far = one_dot(ram, line, by, so_far);
    }
    so_far
}

// All dots from the first on.
pub fn line_blit(ram: &mut [u16], line: Line, dots: u32, first: Dot) -> Drawn
    requires { (first.spot.at.word < pointer_end) × (first.spot.shift < 16) × (first.bit < 16) × (dots < 4294967295) }
    ensures { state ram.new result ≡ line_blit line dots (state ram.old (begun first)) }
{
    let mark = line::walk::mark_of(first);
    let by = line::walk::steps(line);
    let end = all_dots(ram, line, by, dots, mark);
    Drawn {
        dot: line::walk::dot_of(end.mark),
        allzero: end.allzero,
        stored: end.stored,
    }
}
