// The test before a blit by blocks: how many rows at a time may be fetched before any of them is stored.
#![tactic(auto)]

mod calm;
mod span;
pub mod types;

ghost use Rattle.std.specs.Prelude.{◌≡◌, true, Some, ◌*◌, ◌<◌, ◌≤◌};
ghost use Rattle.word.specs.Pointer.{pointer_end};
ghost use Rattle.apart.specs.Inner.Placed.{Placed};
ghost use Rattle.apart.specs.Inner.Apart.{AllApart};
ghost use Rattle.apart.specs.Inner.Spans.{Span, Evenly, Known, Sized, Spans};

use crate::calm::source_rows;
use crate::types::{Span, Strides};
use area::types::{Flow, Setup};
use block::types::{Course, Size};

// The strides of a blit's channels.
pub fn strides(setup: Setup, width: u32) -> Strides
    requires { width ≤ 64 }
    ensures { Evenly setup width result }
{
    Strides {
        a: word::even::stride(setup.direction, width, setup.modulos.a) as usize,
        b: word::even::stride(setup.direction, width, setup.modulos.b) as usize,
        c: word::even::stride(setup.direction, width, setup.modulos.c) as usize,
        d: word::even::stride(setup.direction, width, setup.modulos.d) as usize,
    }
}

// D's words; any, where D isn't used.
fn stored(n: usize, setup: Setup, size: Size, to: Course) -> Option<Span>
    requires { Sized n size × (to.from < pointer_end) × (to.far < pointer_end) }
    ensures { (span : Span) → result ≡ Some span → setup.uses.d ≡ true → Spans n setup.direction size to span }
{
    if setup.uses.d {
        return crate::span::span(n, setup.direction, size, to);
    }
    Some(Span { low: 0, high: 0 })
}

// None at once, 0, where the blit must go word by word. D's rows matter where D is used.
// A count and no Option: each source's is the most that the next may have, and no rows at once is the count 0.
pub fn rows_at_once(n: usize, setup: Setup, size: Size, flow: Flow, far: Strides) -> usize
    requires { Known n setup size flow far }
    ensures { (result * size.width ≤ 64)
        × (1 ≤ result → Placed n setup size.width size.height flow far
        × AllApart setup size.width (result * size.width) (size.height * size.width) flow) }
{
    let uses = setup.uses;
    let at = flow.pointers;
    let to = Course {
        from: at.d.word as usize,
        far: far.d,
    };
    match stored(n, setup, size, to) {
        None => 0,
        Some(d) => {
            let a = source_rows(n, setup, size, d, to, uses.a, at.a, far.a, 64 / size.width);
            let b = source_rows(n, setup, size, d, to, uses.b, at.b, far.b, a);
            source_rows(n, setup, size, d, to, uses.c, at.c, far.c, b)
        }
    }
}
