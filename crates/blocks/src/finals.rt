// A block's final words from the words of its sources.
ghost use Rattle.std.specs.Prelude.{◌≡◌, ◌*◌, ◌<◌, ◌≤◌};
ghost use Rattle.blocks.specs.Inner.Block.{needed};
ghost use Rattle.blocks.specs.Inner.MadeOf.{FinalWords, FinalCarry};

use area::types::{Earlier, Setup};
use block::types::{Needs, Size, Words};
use word::types::Inputs;

// A is masked already; B is shifted to where the mix goes. A shift of A by nought is
// none. Counts go on to a multiple of 8. The answer is the last carry.
pub fn finals(
    setup: Setup,
    need: Needs,
    size: Size,
    earlier: Earlier,
    x: &Inputs<Words>,
    ya: &mut Words,
    o: &mut Words,
) -> u16
    requires { (need ≡ needed setup.function) × (setup.shifts.a < 16) × (setup.shifts.b < 16) × (1 ≤ size.width) × (1 ≤ size.height * size.width)
        × (size.height * size.width ≤ 64) }
    ensures { FinalWords setup size.width (size.height * size.width) earlier x.now o.new
        × FinalCarry setup size.width (size.height * size.width) earlier x.now result }
{
    let all = (size.height * size.width + 7) / 8 * 8;
    block::shift::shift(
        need.b,
        setup.direction,
        setup.shifts.b,
        all,
        earlier.b,
        &x.b,
        o,
    );
    if setup.shifts.a == 0 {
        block::shift::unmoved(setup.direction, setup.shifts.a, earlier.a, &x.a);
        block::mix::mix(setup.function, need, all, &x.a, &x.c, o);
        return block::fill::fill(setup.fill, setup.carry, size, o, ya);
    }
    block::shift::shift(
        need.a,
        setup.direction,
        setup.shifts.a,
        all,
        earlier.a,
        &x.a,
        ya,
    );
    block::mix::mix(setup.function, need, all, ya, &x.c, o);
    block::fill::fill(setup.fill, setup.carry, size, o, ya)
}
