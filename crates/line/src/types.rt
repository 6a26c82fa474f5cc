// The types that the definitions of a line speak of.
use word::types::{Pair, Pointer};

// SUD, SUL and AUL of BLTCON1, the manual's octant code.
#[derive(Clone, Copy)]
pub struct Octant {
    pub sud: bool,
    pub sul: bool,
    pub aul: bool,
}

// What the accumulator gains: the whole modulos of A and B.
pub type Gains = Pair<u16>;

// What a line is set up with, and no dot changes. A's data is masked; a row is half of C's modulo, in words modulo
// 262,144.
#[derive(Clone, Copy)]
pub struct Line {
    pub a: u16,
    pub texture: u16,
    pub function: u16,
    pub sing: bool,
    pub octant: Octant,
    pub row: u32,
    pub gains: Gains,
}

// Where a dot stands: at the word of C's pointer, and in it as far right as A's shift.
#[derive(Clone, Copy)]
pub struct Spot {
    pub at: Pointer,
    pub shift: u32,
}

// What changes from dot to dot. The bit is the texture's; first says whether this dot is the first of all, or the first
// after a vertical move.
#[derive(Clone, Copy)]
pub struct Dot {
    pub spot: Spot,
    pub bit: u32,
    pub accumulator: u16,
    pub sign: bool,
    pub first: bool,
}

// How far a line has come, memory aside: the dot that is next, whether every word stored was zero, and how many were
// stored.
#[derive(Clone, Copy)]
pub struct Drawn {
    pub dot: Dot,
    pub allzero: bool,
    pub stored: u32,
}
