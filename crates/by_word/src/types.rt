// The type that a smear speaks of.

// The last word fetched, and whether all words stored were nought.
#[derive(Clone, Copy)]
pub struct Smeared {
    pub last: u16,
    pub zero: bool,
}
