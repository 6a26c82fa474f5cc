// The fetch of one word's sources, and their pointers' moves.
ghost use Rattle.std.specs.Prelude.{◌≡◌};
ghost use Rattle.area.specs.With.{with_pointers};
ghost use Rattle.area.specs.Fetch.{fetched, fetch};
ghost use Rattle.area.specs.Move.{stepped};

use crate::types::{Flow, Pointers, Sources};
use word::types::{Direction, Pointer, Uses};

// What a source gives, and its pointer moved on.
#[derive(Clone, Copy)]
pub struct Source {
    pub word: u16,
    pub pointer: Pointer,
}

fn fetched(used: bool, ram: &[u16], direction: Direction, pointer: Pointer, source: u16) -> Source
    ensures { (result.word ≡ fetched used ram.now pointer source)
        × (result.pointer ≡ stepped direction used pointer) }
{
    if used {
        return Source {
            word: word::memory::read(ram, pointer.word),
            pointer: pointer.moved(direction).to,
        };
    }
    Source {
        word: source,
        pointer,
    }
}

// A source is fetched and its pointer moved on under one test of its use. D's pointer stays until its word waits.
pub fn fetch(ram: &[u16], direction: Direction, uses: Uses, flow: Flow) -> Flow
    ensures { result
        ≡ with_pointers
        (record {
          a = stepped direction uses.a flow.pointers.a;
          b = stepped direction uses.b flow.pointers.b;
          c = stepped direction uses.c flow.pointers.c;
          d = flow.pointers.d;
        })
        (fetch uses ram.now flow) }
{
    let a = fetched(uses.a, ram, direction, flow.pointers.a, flow.sources.a);
    let b = fetched(uses.b, ram, direction, flow.pointers.b, flow.sources.b);
    let c = fetched(uses.c, ram, direction, flow.pointers.c, flow.sources.c);
    Flow {
        pointers: Pointers {
            a: a.pointer,
            b: b.pointer,
            c: c.pointer,
            ..flow.pointers
        },
        sources: Sources {
            a: a.word,
            b: b.word,
            c: c.word,
        },
        ..flow
    }
}
