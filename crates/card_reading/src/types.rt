// The types that the reading of a card's lines speaks of.

// The words of memory that the first line asks for, and the place of the second line.
#[derive(Clone, Copy)]
pub struct Ram {
    pub words: u32,
    pub start: usize,
}

// A key's letters, and the offset of its register.
#[derive(Clone, Copy)]
pub struct Key {
    pub letters: [u8; 4],
    pub offset: u16,
}
