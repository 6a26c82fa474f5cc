// An area blit word by word, each word stored after the next one's fetches.
#![tactic(auto)]

pub mod smear;
pub mod types;

ghost use Rattle.std.specs.Prelude.{◌≡◌, ◌+◌, ◌*◌, ◌<◌, ◌≤◌};
ghost use Rattle.area.specs.Flow.{state};
ghost use Rattle.area.specs.Rows.{one_word, words, one_row, rows, area_blit};

use area::types::{Flow, Setup};

// Width, height and what remains are by themselves, as in the definitions; what is counted stays within 32 bits.

// One word: its sources are fetched, then the word before it is stored, and this one waits; the pointers move on. So
// many of its row are left after it.
pub fn one_word(ram: &mut [u16], setup: Setup, width: u32, remaining: u32, flow: Flow) -> Flow
    requires { (setup.shifts.a < 16) × (setup.shifts.b < 16)
        × (flow.stored < 4294967295) × (remaining < 4294967295) }
    ensures { state ram.new result
        ≡ one_word setup width remaining (state ram.old flow) }
{
    let uses = setup.uses;
    let direction = setup.direction;
    let fetched = area::fetch::fetch(ram, direction, uses, flow);
    let made = area::finish::finish(setup, remaining + 1 == width, remaining == 0, fetched);
    let finished = made.flow;
    let stored = area::store::store_pending(ram, finished);
    let waiting = area::store::wait(uses.d, made.word, stored);
    area::moves::move_d(direction, uses.d, waiting)
}

// The words of a row.
fn words(ram: &mut [u16], setup: Setup, width: u32, flow: Flow) -> Flow
    requires { (setup.shifts.a < 16) × (setup.shifts.b < 16) × (flow.stored + width < 4294967296) }
    ensures { state ram.new result
        ≡ words setup width width (state ram.old flow) }
{
    let mut here = flow;
    for remaining in (0..width).rev() {
        here = one_word(ram, setup, width, remaining, here);
    }
    here
}

// A row: its start, its words, and its end.
fn row(ram: &mut [u16], setup: Setup, width: u32, flow: Flow) -> Flow
    requires { (setup.shifts.a < 16) × (setup.shifts.b < 16) × (flow.stored + width < 4294967296) }
    ensures { state ram.new result
        ≡ one_row setup width (state ram.old flow) }
{
    let uses = setup.uses;
    let direction = setup.direction;
    let modulos = setup.modulos;
    let end = words(ram, setup, width, area::rows::row_start(setup, flow));
    area::moves::row_end(direction, uses, modulos, end)
}

// All rows, one after the other.
fn rows(ram: &mut [u16], setup: Setup, width: u32, height: u32, flow: Flow) -> Flow
    requires { (setup.shifts.a < 16) × (setup.shifts.b < 16)
        × (width ≤ 64) × (flow.stored + height * 64 < 4294967296) }
    ensures { state ram.new result
        ≡ rows setup width height (state ram.old flow) }
{
    let mut here = flow;
    for _remaining in (0..height).rev() {
        here = row(ram, setup, width, here);
    }
    here
}

// A whole blit: its rows, then the store of the last word.
pub fn area_blit(ram: &mut [u16], setup: Setup, width: u32, height: u32, flow: Flow) -> Flow
    requires { (setup.shifts.a < 16) × (setup.shifts.b < 16)
        × (width ≤ 64) × (flow.stored + height * 64 < 4294967295) }
    ensures { state ram.new result
        ≡ area_blit setup width height (state ram.old flow) }
{
    let end = rows(ram, setup, width, height, flow);
    area::store::store_pending(ram, end)
}
