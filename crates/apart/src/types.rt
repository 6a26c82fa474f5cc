// The types that the test before blocks speaks of.
use word::types::Channels;

// What may be asked of a size (`Sized`) hangs on memory's length too: no size has it by itself.

// How far above a row's start the next one's is, for each channel.
pub type Strides = Channels<usize>;

// The lowest word and the highest of a channel whose rows all lie inside memory, none going round.
#[derive(Clone, Copy)]
pub struct Span {
    pub low: usize,
    pub high: usize,
}
