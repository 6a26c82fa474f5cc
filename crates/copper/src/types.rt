// The types that the definitions of a frame speak of.
ghost use Rattle.std.specs.Prelude.{◌≡◌};
ghost use Rattle.copper.specs.Why.{why_number, answer_number};

use instruction::types::{Position, Refusal};

// Why a frame stopped; memory and register file are refused by the blit's own reasons. It isn't a Result: a frame that a
// refusal stops has done the instructions before it, and its answer counts them as any other's.
#[derive(Clone, Copy, Debug, PartialEq, Eq)]
pub enum Why {
    EndOfFrame,
    UsedUp,
    Refused(Refusal),
}

// The papers' numbers; the kinds have none of their own, as one carries its refusal.
impl Why {
    pub fn number(self) -> u32
        ensures { result ≡ why_number self }
    {
        match self {
            Why::EndOfFrame => 0,
            Why::UsedUp => 1,
            Why::Refused(_) => 2,
        }
    }

    // The refusal's, 0 where there is none.
    pub fn refusal_number(self) -> u32
        ensures { result ≡ answer_number self }
    {
        match self {
            Why::EndOfFrame | Why::UsedUp => 0,
            Why::Refused(reason) => reason.number(),
        }
    }
}

// What a frame answers: why it stopped, how many instructions were done, and where the Copper stands, at the next or the
// refused one.
#[derive(Clone, Copy, Debug, PartialEq, Eq)]
pub struct Answer {
    pub why: Why,
    pub done: u32,
    pub here: Position,
}
