// The type that the definitions of a line of picture speak of.

// Why the call is refused: because of memory, the register file, the numbers of the playfield, the output, or a plane
// that leaves memory. Each has the paper's number.
#[derive(Clone, Copy, Debug, PartialEq, Eq)]
pub enum Refusal {
    MemorySize = 1,
    RegisterFile = 2,
    BadPlayfield = 24,
    TooShort = 25,
    Leaves = 10,
}
