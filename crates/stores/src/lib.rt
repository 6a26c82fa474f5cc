// A blit's stores without a memory: where they go, what they hold, and where D's pointer ends.
#![tactic(auto)]

ghost use Rattle.std.specs.Prelude.{◌≡◌, ◌<◌, ◌≤◌};
ghost use Rattle.word.specs.Laid.{laid};
ghost use Rattle.word.specs.Repeat.{repeated};
ghost use Rattle.word.specs.Pointer.{pointer_end, next_row};
ghost use Rattle.stores.specs.Stores as specs;

mod rows;
pub mod types;

use rows::Rows;
use types::Store;
use word::laying::Laying;
use word::types::{Direction, Pointer};

// Lays a blit's stores into a lent run, and answers whether every word was zero. Past the run's end nothing is written.
pub fn stores(file: &[u16], size: u16, run: &mut [Store]) -> bool
    ensures { (result ≡ specs.all_zero (specs.stores file.now size))
        × (run.new ≡ laid (specs.stores file.now size) 0 run.old) }
{
    let rows = Rows {
        setup: area::setup::setup(file),
        width: word::size::width(size),
    };
    let mut out = Laying { run, at: 0 };
    let flow = area::flow::start(file);
    let end = rows.blit_stores(&mut out, word::size::height(size), flow);
    end.allzero
}

// D's pointer so many rows on.
fn rows_on(direction: Direction, width: u32, modulo: u32, rows: u32, pointer: Pointer) -> Pointer
    requires { (pointer.word < pointer_end) × (width ≤ 64) }
    ensures { result ≡ repeated (λ _. next_row direction width modulo) rows pointer }
{
    let mut here = pointer;
    for _row in 0..rows {
        here = here.next_row(direction, width, modulo);
    }
    here
}

// Where a blit leaves D's pointer.
pub fn final_d(file: &[u16], size: u16) -> Pointer
    ensures { result ≡ specs.final_d file.now size }
{
    let setup = area::setup::setup(file);
    let d = area::flow::pointers(file).d;
    let width = word::size::width(size);
    let height = word::size::height(size);
    rows_on(setup.direction, width, setup.modulos.d, height, d)
}
