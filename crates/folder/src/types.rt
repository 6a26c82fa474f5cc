// The types that the answers of a folding speak of.

// Why a folding is refused, in the order of the paper: memory, the job's length, what is no step, and a folded job that
// is too long.
#[derive(Clone, Copy, Debug, PartialEq, Eq)]
pub enum Refusal {
    MemorySize,
    JobLength,
    Step(job::types::Refusal),
    TooLong,
}

// What a folding that is done answers: the length of the folded job, and whether a blit was kept for going round alone.
// Each folding tells both: neither stands for the other's absence.
#[derive(Clone, Copy)]
pub struct Done {
    pub length: usize,
    pub round: bool,
}

// What a refused folding answers: why, and the place of the refused step.
#[derive(Clone, Copy)]
pub struct Stopped {
    pub why: Refusal,
    pub place: usize,
}

// What a folding answers.
pub type Answer = Result<Done, Stopped>;

// The paper's numbers of an answer: the refusal's, 0 where it is done; the place of the refused step, 0 where it is
// done; the folded job's length, 0 where it is refused; the yes. Each is told of every answer, as C takes them.
#[derive(Clone, Copy)]
pub struct Told {
    pub number: u32,
    pub place: usize,
    pub length: usize,
    pub round: bool,
}
