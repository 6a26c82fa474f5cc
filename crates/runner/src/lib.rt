// The runner: takes a job's steps in order over lent memory and a lent register file, by the blit's contract.
#![tactic(auto)]

pub mod answer;
mod step;
mod steps;
pub mod theorems;
pub mod types;

ghost use Rattle.std.specs.Prelude.{◌≡◌, Err, false};
ghost use Rattle.runner.specs.Run.{run};
ghost use Rattle.runner.specs.Answer.{left};

use crate::types::{Answer, NONE_DONE, Refusal, Stopped};

// What is refused before the first step: nothing is done.
fn unstarted(why: Refusal) -> Answer
    ensures { result ≡ Err (record { why = why; place = 0; done = record { stored = 0; round = false } }) }
{
    Err(Stopped {
        why,
        place: 0,
        done: NONE_DONE,
    })
}

// Runs a job. A refusal leaves memory, file, count and yes as after the last step that was done.
pub fn run(ram: &mut [u16], file: &mut [u16], job: &[u16]) -> Answer
    ensures { left result ram.new file.new
        ≡ run ram.old file.old job.now }
{
    if word::memory::memory_size(ram.len()) {
        return unstarted(Refusal::Blit(refusal::types::Refusal::MemorySize));
    }
    if !file::accepted(file) {
        return unstarted(Refusal::Blit(refusal::types::Refusal::RegisterFile));
    }
    if job::length::job_length(job) {
        return unstarted(Refusal::JobLength);
    }
    crate::steps::run_steps(ram, file, job)
}
