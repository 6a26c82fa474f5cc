// The paper's number of an answer.
ghost use Rattle.std.specs.Prelude.{◌≡◌};
ghost use Rattle.picture.specs.Picture.{answer_number};

use crate::types::Refusal;

// `widen` tells its numbers so too, of an enum of its own: a generic one would ask a trait for one `as u32`.
pub fn number(answer: Result<(), Refusal>) -> u32
    ensures { result ≡ answer_number answer }
{
    match answer {
        Ok(()) => 0,
        Err(refusal) => refusal as u32,
    }
}
