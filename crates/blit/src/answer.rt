// The paper's numbers of an answer.
ghost use Rattle.std.specs.Prelude.{◌≡◌};
ghost use Rattle.blit.specs.Blit.{told};

use crate::types::{Done, Told};
use refusal::types::Refusal;

pub fn told(answer: Result<Done, Refusal>) -> Told
    ensures { result ≡ told answer }
{
    match answer {
        Ok(done) => Told {
            number: 0,
            stored: done.stored,
            round: done.round,
        },
        Err(why) => Told {
            number: why.number(),
            stored: 0,
            round: false,
        },
    }
}
