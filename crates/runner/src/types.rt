// The types that the answers of a run speak of. A step or a run that is done answers what a blit does that is done.
ghost use Rattle.std.specs.Prelude.{◌≡◌};
ghost use Rattle.runner.specs.declared.types.Refusal as reasons;

use blit::types::Done;

// Why a run is refused: a blit's own reasons, among them memory and register file; a job that is too long; what is no
// step; a store that doesn't lie in memory.
#[derive(Clone, Copy, Debug, PartialEq, Eq)]
pub enum Refusal {
    Blit(refusal::types::Refusal),
    JobLength,
    Step(job::types::Refusal),
    StoreOutside,
}

impl From<refusal::types::Refusal> for Refusal {
    ghost from_gives = { λ why reason. reason ≡ reasons.Refusal.Blit why };

    fn from(why: refusal::types::Refusal) -> Refusal {
        Refusal::Blit(why)
    }
}

// Of no step.
pub const NONE_DONE: Done = Done {
    stored: 0,
    round: false,
};

// What a refused run answers: why, the place of the refused step, and what the steps before it answer.
#[derive(Clone, Copy)]
pub struct Stopped {
    pub why: Refusal,
    pub place: usize,
    pub done: Done,
}

// What one step answers.
pub type Taken = Result<Done, Refusal>;

// What a run answers.
pub type Answer = Result<Done, Stopped>;

// The paper's numbers of an answer: the refusal's, 0 where it is done; the place of the refused step, 0 where it is
// done; the count; the yes. Each is told of every answer, as C takes them.
#[derive(Clone, Copy)]
pub struct Told {
    pub number: u32,
    pub place: usize,
    pub stored: u32,
    pub round: bool,
}
