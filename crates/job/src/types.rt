// The types that the definitions of a job speak of.

// What a step's first word begins: a register's write, with the register's place in the file; a write of BLTSIZE;
// a store, with the high half of its address; a flag step, with the flag.
#[derive(Clone, Copy, Debug, PartialEq, Eq)]
pub enum Kind {
    Register(u32),
    Size,
    Store(u16),
    Flag(u16),
}

// One step of a job. A register's write carries the register's place in the file and the value as written;
// a store the number of the word that it goes to, and the value.
#[derive(Clone, Copy, Debug, PartialEq, Eq)]
pub enum Step {
    Register { place: u32, value: u16 },
    Size(u16),
    Store { to: u32, value: u16 },
    Flag(u16),
}

// Why what stands at a place of a job is no step, with the paper's number, in the order of the paper.
#[derive(Clone, Copy, Debug, PartialEq, Eq)]
pub enum Refusal {
    NoStep = 4,
    CutOff = 5,
    OddStore = 6,
}

// What stands at a place of a job: a step with the place of the next; None at the end; or what is refused as no step.
pub type Read = Result<Option<(Step, usize)>, Refusal>;
