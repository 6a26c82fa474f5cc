// The types that the definitions of one word speak of.

// Ascending, or descending as BLTCON1 bit 1 says.
#[derive(Clone, Copy)]
pub enum Direction {
    Ascending,
    Descending,
}

// A word number below 262,144.
// That it is below stands in the contracts and in no ghost field: `QuietBlit` and `FoundBlit` speak of pointers at any
// word.
#[derive(Clone, Copy)]
pub struct Pointer {
    pub word: u32,
}

// A pointer moved, and whether it went round. Both are told: a pointer that goes round leads somewhere too, so that an
// Option would lose its place.
#[derive(Clone, Copy)]
pub struct Move {
    pub to: Pointer,
    pub round: bool,
}

// Which fill the fill bits of BLTCON1 ask for.
#[derive(Clone, Copy)]
pub enum Fill {
    Off,
    Inclusive,
    Exclusive,
}

// A filled word, and the carry for the next.
#[derive(Clone, Copy)]
pub struct Filled {
    pub word: u16,
    pub carry: u16,
}

// A thing for each channel.
#[derive(Clone, Copy)]
pub struct Channels<T> {
    pub a: T,
    pub b: T,
    pub c: T,
    pub d: T,
}

// A thing for each channel that the logic function reads.
#[derive(Clone, Copy)]
pub struct Inputs<T> {
    pub a: T,
    pub b: T,
    pub c: T,
}

// A thing for A and one for B.
#[derive(Clone, Copy)]
pub struct Pair<T> {
    pub a: T,
    pub b: T,
}

// The channels in use.
pub type Uses = Channels<bool>;
