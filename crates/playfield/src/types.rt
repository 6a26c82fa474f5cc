// A playfield as it is lent, and the array in which a line is made.

// Each plane's word number, that of plane 1 first, the words per line, and the delays.
#[derive(Clone, Copy)]
pub struct Playfield<'a> {
    pub planes: &'a [u32],
    pub words: usize,
    pub odd: usize,
    pub even: usize,
}

// The colour numbers of the longest line, 640 pixels, with room for what the longest delay pushes past its end.
pub type Numbers = [u16; 656];
