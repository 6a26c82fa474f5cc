// A word finished from its sources: masked, shifted, joined by the logic function, filled.
ghost use Rattle.std.specs.Prelude.{◌≡◌, ◌<◌};
ghost use Rattle.area.specs.Finish.{masked_a, result_word, finish};

use crate::types::{Earlier, Finished, Flow, Setup};

pub fn masked_a(setup: Setup, first: bool, last: bool, flow: Flow) -> u16
    ensures { result ≡ masked_a setup first last flow }
{
    word::mask::masked(
        first,
        last,
        setup.masks.first,
        setup.masks.last,
        flow.sources.a,
    )
}

pub fn result(setup: Setup, masked: u16, flow: Flow) -> u16
    requires { (setup.shifts.a < 16) × (setup.shifts.b < 16) }
    ensures { result ≡ result_word setup masked flow }
{
    let direction = setup.direction;
    let a = word::shift::shifted(direction, setup.shifts.a, flow.earlier.a, masked);
    let b = word::shift::shifted(direction, setup.shifts.b, flow.earlier.b, flow.sources.b);
    word::logic::logic(setup.function, a, b, flow.sources.c)
}

// First and last stand beside the flow: where a word stands in its row is no part of how far the blit has come.
pub fn finish(setup: Setup, first: bool, last: bool, flow: Flow) -> Finished
    requires { (setup.shifts.a < 16) × (setup.shifts.b < 16) }
    ensures { result ≡ finish setup first last flow }
{
    let masked = masked_a(setup, first, last, flow);
    let filled = word::fill::filled(setup.fill, flow.carry, result(setup, masked, flow));
    Finished {
        word: filled.word,
        flow: Flow {
            earlier: Earlier {
                a: masked,
                b: flow.sources.b,
            },
            carry: filled.carry,
            allzero: flow.allzero & (filled.word == 0),
            ..flow
        },
    }
}
