// "A reader that stands on the job and gives one step at a time": a struct of the job and a place, over the decoder.
ghost use Rattle.std.specs.Prelude.{◌≡◌};
ghost use Rattle.job.specs.Step.{step_at};

use crate::step;
use crate::types::Read;

#[derive(Clone, Copy)]
pub struct Reader<'a> {
    pub job: &'a [u16],
    pub place: usize,
}

impl<'a> Reader<'a> {
    // A reader that stands at a place of a job.
    pub fn stand(job: &'a [u16], place: usize) -> Reader<'a>
        ensures { (result.job ≡ job.entry) × (result.place ≡ place) }
    {
        Reader { job, place }
    }

    // What stands at the reader's place.
    pub fn next(self) -> Read
        ensures { result ≡ step_at self.entry.job.now self.entry.place }
    {
        step::step_at(self.job, self.place)
    }
}

// What stands at a place of a job, with plain parameters: runner and folder call this one.
pub fn read_at(job: &[u16], place: usize) -> Read
    ensures { result ≡ step_at job.now place }
{
    Reader::stand(job, place).next()
}
