// The folder: blits whose outcome the job alone settles become stores, and all else is copied.
#![tactic(auto)]

pub mod answer;
pub mod theorems;
pub mod types;
mod write;

ghost use Rattle.std.specs.Prelude.{◌≡◌, Err};
ghost use Rattle.folder.specs.Folding.{folding};
ghost use Rattle.folder.specs.Answer.{left};

use crate::types::{Answer, Refusal, Stopped};

// What is refused before the first step.
fn unstarted(why: Refusal) -> Answer
    ensures { result ≡ Err (record { why = why; place = 0 }) }
{
    Err(Stopped { why, place: 0 })
}

// Folds a job for n words of memory into an output run. A refusal leaves the output as it was.
// The folded job ends exactly as its original: `DemandThree` and `SettledAreReplaced`, in the crate `demands`.
pub fn fold(n: usize, job: &[u16], out: &mut [u16]) -> Answer
    ensures { left result out.new
        ≡ folding n job.now out.old }
{
    if word::memory::memory_size(n) {
        return unstarted(Refusal::MemorySize);
    }
    if job::length::job_length(job) {
        return unstarted(Refusal::JobLength);
    }
    let mut run = [0u16; job::length::JOB_MOST];
    let answer = crate::write::folded(n, job, out, &mut run);
    if let Ok(done) = answer {
        crate::write::hand_out(&run, done.length, out);
    }
    answer
}
