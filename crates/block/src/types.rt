// The types that a block's loops speak of.
use word::types::Inputs;

// A block's words. There are 16 more than a block has, so that a loop may go on to a multiple of 8.
// How many of them a loop goes over, and from which on, are its own arguments.
pub type Words = [u16; 80];

// How many words a row has, and how many rows there are.
// A whole blit and a block have each such a size, and a block's alone is at most 64 words: who wants that says so.
#[derive(Clone, Copy)]
pub struct Size {
    pub width: usize,
    pub height: usize,
}

// Where a channel's rows lie: the first word of the first, and how far above a row's start the next one's is.
// That both are below 262,144 is no ghost field: `course` of the definitions makes one of any pointer and stride.
#[derive(Clone, Copy)]
pub struct Course {
    pub from: usize,
    pub far: usize,
}

// Whether a function depends on each source.
pub type Needs = Inputs<bool>;

// A logic function as a sum without carries: what stands where no source has a 1, and what each product of sources turns
// over.
#[derive(Clone, Copy)]
pub struct Terms {
    pub none: u16,
    pub c: u16,
    pub b: u16,
    pub bc: u16,
    pub a: u16,
    pub ac: u16,
    pub ab: u16,
    pub abc: u16,
}
