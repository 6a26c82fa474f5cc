// The types that the definitions of a blit speak of.
use word::types::{Channels, Direction, Fill, Inputs, Pair, Pointer, Uses};

// Half of each channel's modulo, in words modulo 262,144.
pub type Modulos = Channels<u32>;

// BLTAFWM and BLTALWM.
#[derive(Clone, Copy)]
pub struct Masks {
    pub first: u16,
    pub last: u16,
}

// The shift of A and of B.
// That both are below 16 stands in the contracts and in no ghost field: `QuietBlit` speaks of any.
pub type Shifts = Pair<u32>;

// What a blit doesn't change. The carry is the fill carry in.
#[derive(Clone, Copy)]
pub struct Setup {
    pub uses: Uses,
    pub modulos: Modulos,
    pub masks: Masks,
    pub shifts: Shifts,
    pub function: u16,
    pub direction: Direction,
    pub fill: Fill,
    pub carry: u16,
}

// The pointer of each channel.
pub type Pointers = Channels<Pointer>;

// What each source gives: the data register, which holds the last word fetched.
pub type Sources = Inputs<u16>;

// The earlier word of A, as masked, and of B.
pub type Earlier = Pair<u16>;

// The final word that waits to be stored, and the place it is for.
#[derive(Clone, Copy)]
pub struct Pending {
    pub place: u32,
    pub word: u16,
}

// What a blit changes as it goes, memory aside. The carry is the fill's.
// How far its count may go yet hangs on what is still to be done, so that each function says its own bound.
#[derive(Clone, Copy)]
pub struct Flow {
    pub pointers: Pointers,
    pub sources: Sources,
    pub earlier: Earlier,
    pub carry: u16,
    pub allzero: bool,
    pub stored: u32,
    pub pending: Option<Pending>,
}

// A finished word, and the flow after it.
#[derive(Clone, Copy)]
pub struct Finished {
    pub word: u16,
    pub flow: Flow,
}
