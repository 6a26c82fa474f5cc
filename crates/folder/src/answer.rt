// The paper's numbers of an answer.
ghost use Rattle.std.specs.Prelude.{◌≡◌};
ghost use Rattle.folder.specs.Answer.{refusal_number, told};

use crate::types::{Answer, Refusal, Told};

impl Refusal {
    // The paper's number of it. The kinds have no numbers of their own: one that carries its reason can have none.
    pub fn number(self) -> u32
        ensures { result ≡ refusal_number self }
    {
        match self {
            Refusal::MemorySize => 1,
            Refusal::JobLength => 3,
            Refusal::Step(why) => why.number(),
            Refusal::TooLong => 11,
        }
    }
}

pub fn told(answer: Answer) -> Told
    ensures { result ≡ told answer }
{
    match answer {
        Ok(done) => Told {
            number: 0,
            place: 0,
            length: done.length,
            round: done.round,
        },
        Err(stopped) => Told {
            number: stopped.why.number(),
            place: stopped.place,
            length: 0,
            round: false,
        },
    }
}
