// The job that a good card asks for.
ghost use Rattle.std.specs.Prelude.{◌≡◌, [], ◌∷◌, ◌*◌, ◌+◌, ◌<◌, ◌≤◌, length, get_or};
ghost use Rattle.word.specs.Laid.{laid};
ghost use Rattle.card_reading.specs.Job.{write_order, value, writes};

use crate::keys::offset;
use word::laying::Laying;

// The key of each write: the registers in the file's order, size last.
fn write_order(step: u32) -> u32
    requires { step < 20 }
    ensures value { result ≡ get_or write_order step 0 }
    ensures upper_bound { result < 20 }
{
    if step < 12 {
        return step;
    }
    if step < 19 {
        return step + 1;
    }
    12
}

fn value(text: &[u8], start: usize, key: u32) -> u16
    requires { (start + 200 ≤ length text.now) × (key < 20) }
    ensures { result ≡ value text.now start key }
{
    crate::text::hex_word(text, start + key as usize * 10 + 5)
}

// The write of a step: an offset, then a value.
fn write_step(job: &mut Laying<u16>, step: u32, text: &[u8], start: usize)
    requires { (start + 200 ≤ length text.now) × (step < 20) × (job.old.at < 1000) }
    ensures same_run { job.new.run.ghost_name ≡ job.old.run.ghost_name }
    ensures words { job.new.run.now
        ≡ laid (writes text.now start (get_or write_order step 0 ∷ [])) job.old.at job.old.run.now }
    ensures place { job.new.at ≡ job.old.at + 2 }
{
    let key = write_order(step);
    job.put_all(&[offset(key), value(text, start, key)]);
}

// Writes the job; the keys' lines start at a place of the text.
pub fn job(text: &[u8], start: usize, job: &mut [u16])
    requires { start + 200 ≤ length text.now }
    ensures { job.new
        ≡ laid (writes text.now start write_order) 0 job.old }
{
    let mut words = Laying { run: job, at: 0 };
    for step in 0..20 {
        write_step(&mut words, step, text, start);
    }
}
