// The types that only contracts inside speak of: what the code goes by from dot to dot.

// What follows a dot, by the sign: so many pixels on, so much gained by the accumulator, and whether a move was vertical.
#[derive(Clone, Copy)]
pub struct Step {
    pub pixels: u32,
    pub gain: u16,
    pub vertical: bool,
}

// Where the sign is 0, and where it is 1.
#[derive(Clone, Copy)]
pub struct Steps {
    pub clear: Step,
    pub set: Step,
}

// A dot, its spot as one number: 16 pixels a word, all words counted through. That number and a spot are no one thing, so
// that one type over both would have to call them by one name.
#[derive(Clone, Copy)]
pub struct Mark {
    pub pixel: u32,
    pub bit: u32,
    pub accumulator: u16,
    pub sign: bool,
    pub first: bool,
}

// How far a line has come, with its next dot's mark.
#[derive(Clone, Copy)]
pub struct Marked {
    pub mark: Mark,
    pub allzero: bool,
    pub stored: u32,
}
