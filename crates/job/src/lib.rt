// A job: its length, what its first words begin, the step at a place, and a reader that stands on the job.
#![tactic(auto)]

pub mod length;
pub mod number;
pub mod reader;
pub mod step;
pub mod theorems;
pub mod types;
