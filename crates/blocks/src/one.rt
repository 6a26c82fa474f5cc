// One block: its sources, its final words, their stores, and the flow after it.
ghost use Rattle.std.specs.Prelude.{◌≡◌, true, ◌&&◌, not, ◌+◌, ◌*◌, ◌<◌, ◌≤◌, length, if◌then◌else◌};
ghost use Rattle.area.specs.Flow.{state};
ghost use Rattle.area.specs.Rows.{area_blit};
ghost use Rattle.quiet.specs.Stream.{laid_at};
ghost use Rattle.block.specs.Inner.Place.{place_at};
ghost use Rattle.blocks.specs.Inner.Block.{pointer_end, at, nought, Lies, AsLying, over_by, source_of, last_of};
ghost use Rattle.blocks.specs.Inner.Block.{needed, Asked, Given, AllRest, Supplied, Fits};
ghost use Rattle.blocks.specs.Inner.MadeOf.{last_words, MadeOf, rows_on, pointers_on};
ghost use Rattle.blocks.specs.Inner.Repeats.{Prepared};

use crate::types::{Arrays, Source};
use apart::types::Strides;
use area::types::{Earlier, Flow, Masks, Pointers, Setup, Sources};
use block::types::{Course, Needs, Size, Words};
use word::pointer::INDEX_END;
use word::types::{Direction, Inputs, Pointer};

// A source, its rows as they lie: those without a gap are one.
fn source(
    n: usize,
    direction: Direction,
    size: Size,
    used: bool,
    need: bool,
    pointer: Pointer,
    far: usize,
    word: u16,
) -> Source
    requires { (n ≤ pointer_end) × (pointer.word < pointer_end) × (far < pointer_end)
        × (1 ≤ size.height * size.width) × (size.height * size.width ≤ 64) }
    ensures { (result ≡ source_of used need pointer far word result.rows)
        × (Lies n direction far pointer.word size → AsLying n direction far pointer.word size result.rows) }
{
    let course = Course {
        from: pointer.word as usize,
        far,
    };
    let rows = block::place::as_lying(n, direction, course, size);
    Source {
        used,
        need,
        course,
        word,
        rows,
    }
}

// The words of a source, masked if they are A's, where the function needs them. The answer is the last of them, unmasked.
// Inlined: by a call for each source a word of a copy costs 11.4 instructions, so 7.9.
#[inline(always)]
fn supplied(
    source: Source,
    masks: Option<Masks>,
    direction: Direction,
    ram: &[u16],
    size: Size,
    x: &mut Words,
) -> u16
    requires { Asked (length ram.now) direction source size (over_by masks size.width) x.old }
    ensures { Given direction source size ram.now (over_by masks size.width) x.new (last_of direction source ram.now result) }
{
    if source.used & source.need {
        block::fetch::rows(direction, ram, source.course, source.rows, x);
        let last = x[size.height * size.width - 1];
        if let Some(masks) = masks {
            block::mask::mask(masks, size, x);
        }
        return last;
    }
    source.word
}

// Whether a source is fetched for its register alone.
fn ignored(source: Source) -> bool
    ensures { result ≡ (source.used && not source.need) }
{
    source.used & !source.need
}

// The last word of a source: where the function ignores it, it alone is fetched.
fn last_of(source: Source, got: u16, direction: Direction, ram: &[u16]) -> u16
    requires { (source.used && not source.need) ≡ true
        → Lies (length ram.now) direction source.course.far source.course.from source.rows × (1 ≤ source.rows.height) }
    ensures { result ≡ last_of direction source ram.now got }
{
    if ignored(source) {
        return block::fetch::last_word(direction, ram, source.course, source.rows);
    }
    got
}

// What the three sources give, and the last word of each.
// Set-up, strides and size stand through all blocks, and the flow alone changes: so they stay apart.
fn sources(
    ram: &[u16],
    setup: Setup,
    need: Needs,
    far: Strides,
    size: Size,
    flow: Flow,
    x: &mut Inputs<Words>,
) -> Sources
    requires { (need ≡ needed setup.function) × Fits (length ram.now) setup size flow far × AllRest setup size.width flow.sources x.old }
    ensures { Supplied setup size far flow ram.now x.new result }
{
    let uses = setup.uses;
    let direction = setup.direction;
    let at = flow.pointers;
    let rest = flow.sources;
    let n = ram.len();
    let from_a = source(n, direction, size, uses.a, need.a, at.a, far.a, rest.a);
    let from_b = source(n, direction, size, uses.b, need.b, at.b, far.b, rest.b);
    let from_c = source(n, direction, size, uses.c, need.c, at.c, far.c, rest.c);
    let a = supplied(from_a, Some(setup.masks), direction, ram, size, &mut x.a);
    let b = supplied(from_b, None, direction, ram, size, &mut x.b);
    let c = supplied(from_c, None, direction, ram, size, &mut x.c);
    if ignored(from_a) | ignored(from_b) | ignored(from_c) {
        return Sources {
            a: last_of(from_a, a, direction, ram),
            b: last_of(from_b, b, direction, ram),
            c: last_of(from_c, c, direction, ram),
        };
    }
    Sources { a, b, c }
}

// Where D is used its words are stored.
fn store_words(ram: &mut [u16], setup: Setup, course: Course, size: Size, o: &Words)
    requires { setup.uses.d ≡ true → Lies (length ram.old) setup.direction course.far course.from size }
    ensures { ram.new
        ≡ (if setup.uses.d then laid_at (place_at setup.direction size.width course.far course.from) (at o.now) (size.height * size.width) ram.old
        else ram.old) }
{
    if setup.uses.d {
        block::store::rows(setup.direction, ram, course, size, o);
    }
}

// The words are looked at only as long as all were nought.
fn still_nought(allzero: bool, n: usize, o: &Words) -> bool
    requires { n ≤ 64 }
    ensures { result ≡ (allzero && nought n (at o.now)) }
{
    allzero && block::level::nought(n, o)
}

// Where a channel's pointer stands so many rows later.
fn rows_on(used: bool, far: usize, rows: usize, pointer: Pointer) -> Pointer
    requires { (pointer.word < pointer_end) × (far < pointer_end) × (rows ≤ 64) }
    ensures { result ≡ rows_on used far rows pointer }
{
    if used {
        return Pointer {
            word: ((pointer.word as usize + rows * far) % INDEX_END) as u32,
        };
    }
    pointer
}

fn pointers_on(setup: Setup, far: Strides, rows: usize, at: Pointers) -> Pointers
    requires { (at.a.word < pointer_end) × (at.b.word < pointer_end) × (at.c.word < pointer_end) × (at.d.word < pointer_end)
        × (far.a < pointer_end) × (far.b < pointer_end) × (far.c < pointer_end) × (far.d < pointer_end) × (rows ≤ 64) }
    ensures { result ≡ pointers_on setup far rows at }
{
    let uses = setup.uses;
    Pointers {
        a: rows_on(uses.a, far.a, rows, at.a),
        b: rows_on(uses.b, far.b, rows, at.b),
        c: rows_on(uses.c, far.c, rows, at.c),
        d: rows_on(uses.d, far.d, rows, at.d),
    }
}

// The count after so many words.
fn counted(used: bool, stored: u32, words: usize) -> u32
    requires { (words ≤ 64) × (stored + 64 < 4294967296) }
    ensures { result ≡ stored + (if used then words else 0) }
{
    if used {
        return stored + words as u32;
    }
    stored
}

// A block's last words of A, as masked, and of B.
fn last_words(setup: Setup, width: usize, last: Sources) -> Earlier
    requires { 1 ≤ width }
    ensures { result ≡ last_words setup width last }
{
    let masks = setup.masks;
    let a = word::mask::masked(width == 1, true, masks.first, masks.last, last.a);
    Earlier { a, b: last.b }
}

// The block's final words, and the flow after they are made. Where they stand there already nothing changes.
fn made(
    ram: &[u16],
    setup: Setup,
    far: Strides,
    size: Size,
    ready: bool,
    flow: Flow,
    x: &mut Arrays,
) -> Flow
    requires { Fits (length ram.now) setup size flow far × AllRest setup size.width flow.sources x.old.given
        × (ready ≡ true → Prepared setup size flow x.old.given x.old.out) }
    ensures { MadeOf setup size far flow ram.now x.new.given x.new.out result }
{
    if ready {
        return flow;
    }
    let need = block::needs::needs(setup.function);
    let sources = sources(ram, setup, need, far, size, flow, &mut x.given);
    let carry = crate::finals::finals(
        setup,
        need,
        size,
        flow.earlier,
        &x.given,
        &mut x.shifted,
        &mut x.out,
    );
    let earlier = last_words(setup, size.width, sources);
    let allzero = still_nought(flow.allzero, size.height * size.width, &x.out);
    Flow {
        sources,
        earlier,
        carry,
        allzero,
        ..flow
    }
}

// One block of a blit: as a blit of so many rows.
pub fn one_block(
    ram: &mut [u16],
    setup: Setup,
    far: Strides,
    size: Size,
    ready: bool,
    flow: Flow,
    x: &mut Arrays,
) -> Flow
    requires { Fits (length ram.old) setup size flow far × (flow.stored + 64 < 4294967296)
        × AllRest setup size.width flow.sources x.old.given
        × (ready ≡ true → Prepared setup size flow x.old.given x.old.out) }
    ensures { (state ram.new result ≡ area_blit setup size.width size.height (state ram.old flow))
        × MadeOf setup size far flow ram.old x.new.given x.new.out result }
{
    let at = flow.pointers;
    let end = made(ram, setup, far, size, ready, flow, x);
    let d = source(
        ram.len(),
        setup.direction,
        size,
        setup.uses.d,
        true,
        at.d,
        far.d,
        0,
    );
    store_words(ram, setup, d.course, d.rows, &x.out);
    Flow {
        pointers: pointers_on(setup, far, size.height, at),
        stored: counted(setup.uses.d, flow.stored, size.height * size.width),
        pending: None,
        ..end
    }
}
