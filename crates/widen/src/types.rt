// The type that the definitions of a widening speak of.

// Why a widening is refused: because of the old file, or of the target's length. Each has the paper's number.
#[derive(Clone, Copy, Debug, PartialEq, Eq)]
pub enum Refusal {
    OldFile = 2,
    TargetLength = 20,
}
