// All the blocks of a blit.
ghost use Rattle.std.specs.Prelude.{◌≡◌, true, ◌+◌, ◌-◌, ◌*◌, ◌<◌, ◌≤◌, length};
ghost use Rattle.area.specs.Flow.{state};
ghost use Rattle.area.specs.Rows.{area_blit};
ghost use Rattle.apart.specs.Inner.Placed.{Placed};
ghost use Rattle.apart.specs.Inner.Apart.{AllApart};
ghost use Rattle.blocks.specs.Inner.Block.{over_by, AllRest, Rested};
ghost use Rattle.blocks.specs.Inner.Repeats.{Still};

use crate::types::Arrays;
use apart::types::Strides;
use area::types::{Flow, Masks, Setup};
use block::types::{Size, Words};
use word::types::{Fill, Inputs};

// From the third block on the words stand ready where no source is used.
fn repeats(setup: Setup, most: usize, row: usize) -> bool
    ensures { result ≡ true → Still setup × (most < row) }
{
    let uses = setup.uses;
    if uses.a | uses.b | uses.c {
        return false;
    }
    match setup.fill {
        Fill::Off => most < row,
        Fill::Inclusive | Fill::Exclusive => false,
    }
}

// Block by block: what is left is done as it would have been.
fn block_by_block(
    ram: &mut [u16],
    setup: Setup,
    far: Strides,
    size: Size,
    most: usize,
    flow: Flow,
    x: &mut Arrays,
) -> Flow
    requires { Placed (length ram.old) setup size.width size.height flow far × AllApart setup size.width (most * size.width) (size.height * size.width) flow
        × (1 ≤ most) × (most * size.width ≤ 64) × (2 ≤ most * size.width) × (size.height ≤ 1024) × (flow.stored + size.height * 64 < 4294967232)
        × AllRest setup size.width flow.sources x.old.given }
    ensures { state ram.new result
        ≡ area_blit setup size.width size.height (state ram.old flow) }
{
    let mut here = flow;
    // Counted by hand: by `for` over the blocks' numbers a word of a clearing costs 3.37 instructions, so 3.21.
    let mut row: usize = 0;
    while row < size.height {
        let height = most.min(size.height - row);
        let ready = repeats(setup, most, row);
        here = crate::one::one_block(ram, setup, far, Size { height, ..size }, ready, here, x);
        row += height;
    }
    here
}

// The array of a source at rest, masked if it is A's. In rows of one word every word gets both masks.
// Inlined: by a call for each source a word of a clearing costs 1.92 instructions, so 1.87.
#[inline(always)]
fn rest(used: bool, masks: Option<Masks>, width: usize, word: u16, x: &mut Words)
    requires { (1 ≤ width) × (width ≤ 64) }
    ensures { Rested used width (over_by masks width) word x.new }
{
    if used {
        return;
    }
    if let Some(masks) = masks {
        if width == 1 {
            block::level::level(word & masks.first & masks.last, 64, x);
            return;
        }
        block::level::level(word, 64, x);
        block::mask::mask(
            masks,
            Size {
                width,
                height: 64 / width,
            },
            x,
        );
        return;
    }
    block::level::level(word, 64, x);
}

// A whole blit, so many rows at a time.
pub fn blocks(
    ram: &mut [u16],
    setup: Setup,
    far: Strides,
    size: Size,
    most: usize,
    flow: Flow,
) -> Flow
    requires { Placed (length ram.old) setup size.width size.height flow far × AllApart setup size.width (most * size.width) (size.height * size.width) flow
        × (1 ≤ most) × (most * size.width ≤ 64) × (2 ≤ most * size.width) × (size.height ≤ 1024) × (flow.stored + size.height * 64 < 4294967232) }
    ensures { state ram.new result
        ≡ area_blit setup size.width size.height (state ram.old flow) }
{
    let mut x = Arrays {
        shifted: [0; 80],
        out: [0; 80],
        given: Inputs {
            a: [0; 80],
            b: [0; 80],
            c: [0; 80],
        },
    };
    let words = flow.sources;
    rest(
        setup.uses.a,
        Some(setup.masks),
        size.width,
        words.a,
        &mut x.given.a,
    );
    rest(setup.uses.b, None, size.width, words.b, &mut x.given.b);
    rest(setup.uses.c, None, size.width, words.c, &mut x.given.c);
    block_by_block(ram, setup, far, size, most, flow, &mut x)
}
