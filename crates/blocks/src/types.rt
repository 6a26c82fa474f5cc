// The types that blocks speak of.
use block::types::{Course, Size, Words};
use word::types::Inputs;

// A source: whether it is used, whether the function needs it, where its rows lie, the word that it gives at rest, and how
// many words and rows they are as they lie.
// Two flags and no enum of three: a source not used has its course too, and each flag is asked by itself as well.
#[derive(Clone, Copy)]
pub struct Source {
    pub used: bool,
    pub need: bool,
    pub course: Course,
    pub word: u16,
    pub rows: Size,
}

// The arrays that all the blocks of a blit are done in: A's words as shifted, and later the filled ones; B's as
// shifted, in whose place the final words come; and the words that the sources give, A's masked. These stand last, for
// a loop that reads above where it writes may do more words at a time: with these first a word of a shifted copy costs
// 9.8 instructions, so 9.5.
// What stands in them at rest (`AllRest`) hangs on set-up, width and flow: the functions say it, no ghost field.
#[derive(Drop)]
pub struct Arrays {
    pub shifted: Words,
    pub out: Words,
    pub given: Inputs<Words>,
}
