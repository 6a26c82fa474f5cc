// The length of a job.
ghost use Rattle.std.specs.Prelude.{◌≡◌};
ghost use Rattle.job.specs.Length.{job_length};

// The most words that a job has.
pub const JOB_MOST: usize = 4096;

pub fn job_length(job: &[u16]) -> bool
    ensures { result ≡ job_length job.now }
{
    JOB_MOST < job.len()
}
