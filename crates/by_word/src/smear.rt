// A smear: A alone, unmasked and unfilled, upward, its rows and D's following on one another, and D anywhere but a word
// ahead of A. Then a word may be stored before the next is fetched.
ghost use Rattle.std.specs.Prelude.{◌≡◌, true, ◌+◌, ◌*◌, ◌%◌, ◌<◌, ◌≤◌, length};
ghost use Rattle.word.specs.Pointer.{pointer_end};
ghost use Rattle.area.specs.Flow.{state};
ghost use Rattle.area.specs.Rows.{area_blit};
ghost use Rattle.apart.specs.Inner.Spans.{Known};
ghost use Rattle.by_word.specs.Inner.Smear.{Alone, Smearing, smeared_word, SmearedBy};

use crate::types::Smeared;
use apart::types::Strides;
use area::types::{Earlier, Flow, Pointers, Setup, Sources};
use block::types::{Size, Terms};
use word::pointer::INDEX_END;
use word::types::{Direction, Fill, Pointer};

// A function of A alone, unmasked and unfilled, upward.
fn alone(setup: Setup) -> bool
    ensures { result ≡ true → Alone setup }
{
    let uses = setup.uses;
    let masks = setup.masks;
    let need = block::needs::needs(setup.function);
    if uses.b | uses.c | need.b | need.c {
        return false;
    }
    if !uses.a | !uses.d | (masks.first != 65535) | (masks.last != 65535) {
        return false;
    }
    // One pair of direction and fill is meant: a match shows it as the paper's cases stand.
    match (setup.direction, setup.fill) {
        (Direction::Ascending, Fill::Off) => true,
        _ => false,
    }
}

pub fn smears(n: usize, setup: Setup, size: Size, flow: Flow, far: Strides) -> bool
    requires { Known n setup size flow far }
    ensures { result ≡ true → Smearing n setup size flow far }
{
    let words = size.height * size.width;
    let a = flow.pointers.a.word as usize;
    let d = flow.pointers.d.word as usize;
    if (far.a != size.width) | (far.d != size.width) {
        return false;
    }
    if (n < a + words) | (n < d + words) | (d == a + 1) {
        return false;
    }
    alone(setup)
}

// Word after word.
fn smeared(
    ram: &mut [u16],
    a: usize,
    d: usize,
    n: usize,
    by: u32,
    terms: Terms,
    earlier: u16,
) -> Smeared
    requires { (a + n ≤ length ram.old) × (d + n ≤ length ram.old) × (by < 16) }
    ensures { SmearedBy (smeared_word terms by) a d n earlier ram.old ram.new result.last result.zero }
{
    let mut last = earlier;
    let mut zero = true;
    let mut i: usize = 0;
    // Counted by hand: by a for over a range a copy to two words ahead costs 19.5 instructions a word, so 18.5.
    while i < n {
        let word = ram[a + i];
        let made = terms.none
            ^ (word::shift::shifted(Direction::Ascending, by, last, word) & terms.a);
        ram[d + i] = made;
        zero = (made == 0) & zero;
        last = word;
        i += 1;
    }
    Smeared { last, zero }
}

// A pointer so many words on.
fn words_on(words: usize, pointer: Pointer) -> Pointer
    requires { words ≤ 65536 }
    ensures { result ≡ record { word = (pointer.word + words) % pointer_end } }
{
    Pointer {
        word: ((pointer.word as usize + words) % INDEX_END) as u32,
    }
}

pub fn smear(ram: &mut [u16], setup: Setup, size: Size, flow: Flow, far: Strides) -> Flow
    requires { Known (length ram.old) setup size flow far × Smearing (length ram.old) setup size flow far
        × (flow.stored + size.height * 64 < 4294967232) }
    ensures { state ram.new result
        ≡ area_blit setup size.width size.height (state ram.old flow) }
{
    let words = size.height * size.width;
    let at = flow.pointers;
    let terms = block::mix::terms(setup.function);
    let end = smeared(
        ram,
        at.a.word as usize,
        at.d.word as usize,
        words,
        setup.shifts.a,
        terms,
        flow.earlier.a,
    );
    Flow {
        pointers: Pointers {
            a: words_on(words, at.a),
            d: words_on(words, at.d),
            ..at
        },
        sources: Sources {
            a: end.last,
            ..flow.sources
        },
        earlier: Earlier {
            a: end.last,
            b: flow.sources.b,
        },
        carry: setup.carry,
        allzero: flow.allzero & end.zero,
        stored: flow.stored + words as u32,
        ..flow
    }
}
