// What a blit answers.

// Of a blit that is done: the count of words stored, and whether a channel went round.
// Each blit that is done tells both: neither stands for the other's absence.
#[derive(Clone, Copy, Debug, PartialEq, Eq)]
pub struct Done {
    pub stored: u32,
    pub round: bool,
}

// The paper's numbers of an answer: the refusal's, 0 where it is done; the count; the yes.
// Each is told of every answer, as C takes them: no Option stands for one.
#[derive(Clone, Copy)]
pub struct Told {
    pub number: u32,
    pub stored: u32,
    pub round: bool,
}
