// The moves of D's pointer after a word, and of every used channel's at a row's end. The sources' move as they are fetched.
ghost use Rattle.std.specs.Prelude.{◌≡◌};
ghost use Rattle.area.specs.With.{with_pointers};
ghost use Rattle.area.specs.Move.{stepped, turned, row_end};

use crate::types::{Flow, Modulos, Pointers};
use word::types::{Direction, Pointer, Uses};

// The flow with other pointers.
fn with_pointers(pointers: Pointers, flow: Flow) -> Flow
    ensures { result ≡ with_pointers pointers flow }
{
    Flow { pointers, ..flow }
}

fn turned(direction: Direction, used: bool, words: u32, pointer: Pointer) -> Pointer
    ensures { result ≡ turned direction used words pointer }
{
    if used {
        return pointer.passed(direction, words).to;
    }
    pointer
}

fn stepped(direction: Direction, used: bool, pointer: Pointer) -> Pointer
    ensures { result ≡ stepped direction used pointer }
{
    turned(direction, used, 1, pointer)
}

// D's pointer alone; the sources' have moved as they were fetched.
pub fn move_d(direction: Direction, used: bool, flow: Flow) -> Flow
    ensures { result
        ≡ with_pointers
        (record {
          a = flow.pointers.a;
          b = flow.pointers.b;
          c = flow.pointers.c;
          d = stepped direction used flow.pointers.d;
        })
        flow }
{
    let d = stepped(direction, used, flow.pointers.d);
    with_pointers(Pointers { d, ..flow.pointers }, flow)
}

pub fn row_end(direction: Direction, uses: Uses, modulos: Modulos, flow: Flow) -> Flow
    ensures { result ≡ row_end direction uses modulos flow }
{
    let a = turned(direction, uses.a, modulos.a, flow.pointers.a);
    let b = turned(direction, uses.b, modulos.b, flow.pointers.b);
    let c = turned(direction, uses.c, modulos.c, flow.pointers.c);
    let d = turned(direction, uses.d, modulos.d, flow.pointers.d);
    with_pointers(Pointers { a, b, c, d }, flow)
}
