// The types that the definitions of an instruction speak of.
ghost use Rattle.std.specs.Prelude.{◌≡◌};
ghost use Rattle.instruction.specs.Refusal.{refusal_number};
ghost use Rattle.instruction.specs.declared.types.Refusal as reasons;

// An instruction: a MOVE of a value to an offset, a WAIT or a SKIP by its two words.
#[derive(Clone, Copy, Debug, PartialEq, Eq)]
pub enum Instruction {
    Move { offset: u16, value: u16 },
    Wait { first: u16, second: u16 },
    Skip { first: u16, second: u16 },
}

// Where the Copper stands: the beam's place, and the word of the next instruction.
// That it lies in the frame and in memory is no ghost field: a list may be started anywhere.
#[derive(Clone, Copy, Debug, PartialEq, Eq)]
pub struct Position {
    pub beam: u32,
    pub word: u32,
}

// Why an instruction is refused: a blit's own reasons; a forbidden offset; a permitted one that isn't modelled; an
// instruction that doesn't lie in memory.
#[derive(Clone, Copy, Debug, PartialEq, Eq)]
pub enum Refusal {
    Blit(refusal::types::Refusal),
    Forbidden,
    NotModelled,
    Outside,
}

impl Refusal {
    // The papers' number of it. The kinds have no numbers of their own, as one carries a blit's refusal.
    pub fn number(self) -> u32
        ensures { result ≡ refusal_number self }
    {
        match self {
            Refusal::Blit(why) => why.number(),
            Refusal::Forbidden => 21,
            Refusal::NotModelled => 22,
            Refusal::Outside => 23,
        }
    }
}

impl From<refusal::types::Refusal> for Refusal {
    ghost from_gives = { λ why reason. reason ≡ reasons.Refusal.Blit why };

    fn from(why: refusal::types::Refusal) -> Refusal {
        Refusal::Blit(why)
    }
}
