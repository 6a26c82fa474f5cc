// The steps of a job, one after the other.
ghost use Rattle.std.specs.Prelude.{◌≡◌, false, ◌≤◌, length};
ghost use Rattle.job.specs.Length.{job_most};
ghost use Rattle.runner.specs.Run.{machine, run_from};
ghost use Rattle.runner.specs.Answer.{left};

use crate::types::{Answer, NONE_DONE, Refusal, Stopped};

// Takes the steps in order, to the job's end or to the first refused one.
pub fn run_steps(ram: &mut [u16], file: &mut [u16], job: &[u16]) -> Answer
    requires { length job.now ≤ job_most }
    ensures { left result ram.new file.new
        ≡ run_from 0 job.now (machine ram.old file.old 0 false) }
{
    let mut place: usize = 0;
    let mut done = NONE_DONE;
    loop {
        match job::reader::read_at(job, place) {
            Ok(Some((step, next))) => match crate::step::take(ram, file, step) {
                Ok(here) => {
                    done.stored += here.stored;
                    done.round |= here.round;
                    place = next;
                }
                Err(why) => return Err(Stopped { why, place, done }),
            },
            Ok(None) => return Ok(done),
            Err(why) => {
                return Err(Stopped {
                    why: Refusal::Step(why),
                    place,
                    done,
                });
            }
        }
    }
}
