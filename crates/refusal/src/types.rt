// The types that the refusal of a blit speaks of.
ghost use Rattle.std.specs.Prelude.{◌≡◌};
ghost use Rattle.refusal.specs.Inner.Ranges.{ChannelRange};
ghost use Rattle.refusal.specs.Number.{refusal_number};

use area::types::{Pointers, Setup};
use line::types::{Dot, Line};
use word::types::{Direction, Pointer};

// Why a blit is refused, with the papers' number. An area blit that leaves memory is refused by the first channel that
// does, in the order A, B, C, D; a line by C, which D follows. LineForm is a line's width or use bits, LineApart its C and
// D pointers.
#[derive(Clone, Copy, Debug, PartialEq, Eq)]
pub enum Refusal {
    MemorySize = 1,
    RegisterFile = 2,
    BothFills = 8,
    FillUpward = 9,
    ALeaves = 14,
    BLeaves = 15,
    CLeaves = 16,
    DLeaves = 17,
    LineForm = 18,
    LineApart = 19,
}

impl Refusal {
    // The papers' number of it.
    pub fn number(self) -> u32
        ensures { result ≡ refusal_number self }
    {
        self as u32
    }
}

// A channel of an area blit, over all its rows.
// Its use is a flag and no Option round it: an unused channel has its place, modulo and range like the others.
#[derive(Clone, Copy)]
pub struct Channel {
    pub used: bool,
    pub direction: Direction,
    pub width: u32,
    pub modulo: u32,
    pub rows: u32,
    pub pointer: Pointer,
    pub ghost in_range: { ChannelRange width rows pointer },
}

// What an area blit goes by, decoded once from register file and size. Types as narrow as width and height are tell the
// compiler how small they stay.
// Its channels' ranges (`AreaRange`) are no ghost field: `area_plan` makes one of any file and size, and would have to
// carry a proof of them.
#[derive(Clone, Copy)]
pub struct AreaPlan {
    pub setup: Setup,
    pub pointers: Pointers,
    pub width: u8,
    pub height: u16,
}

// What a line goes by, decoded once.
// Below this crate a line, its dots and its first dot go as three, as the definitions take them.
#[derive(Clone, Copy)]
pub struct LinePlan {
    pub line: Line,
    pub first: Dot,
    pub dots: u16,
}

// What a blit goes by: it is an area's or a line's.
#[derive(Clone, Copy)]
pub enum Plan {
    Area(AreaPlan),
    Line(LinePlan),
}
