// What becomes of a blit.

// Which of three a blit is to the folder: settled, kept for going round alone, or kept for another reason too.
#[derive(Clone, Copy, Debug, PartialEq, Eq)]
pub enum Fate {
    Settled,
    KeptForRound,
    Kept,
}
