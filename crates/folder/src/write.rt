// The folded job laid into a run of our own, from its front on, and handed out.
ghost use Rattle.std.specs.Prelude.{◌≡◌, Ok, Err, not, ◌||◌, ◌+◌, ◌*◌, ◌<◌, ◌≤◌, leb, length, take, drop, ◌++◌, if◌then◌else◌};
ghost use Rattle.word.specs.Laid.{laid};
ghost use Rattle.word.specs.Size.{height, width};
ghost use Rattle.job.specs.declared.types.Step as steps;
ghost use Rattle.job.specs.Step.{operands};
ghost use Rattle.job.specs.Length.{job_most};
ghost use Rattle.stores.specs.Stores.{final_d};
ghost use Rattle.settled.specs.Words.{settled_words};
ghost use Rattle.knowledge.specs.Knowledge.{numbers};
ghost use Rattle.learning.specs.Learn.{forgotten, moved_d};
ghost use Rattle.folder.specs.Inner.Put.{Put};
ghost use Rattle.folder.specs.Inner.Folded.{Folded};
ghost use Rattle.folder.specs.declared.types.Refusal.TheVariants.{TooLong};

use crate::types::{Answer, Done, Refusal, Stopped};
use job::types::Step;
use knowledge::types::Knowledge;
use settled::types::Fate;
use word::laying::Laying;

// Lays a settled blit.
fn put_blit(words: &mut Laying<u16>, known: &mut Knowledge, size: u16)
    requires { (words.old.at < 1000000) × (height size * width size ≤ 64) }
    ensures same_run { words.new.run.ghost_name ≡ words.old.run.ghost_name }
    ensures words { words.new.run.now
        ≡ laid (settled_words (numbers known.old.registers) size) words.old.at words.old.run.now }
    ensures place { words.new.at ≡ words.old.at + length (settled_words (numbers known.old.registers) size) }
    ensures learns { known.new.registers ≡ moved_d (final_d (numbers known.old.registers) size) known.old.registers }
{
    let file = known.numbers();
    let end = output::words::put_settled(words, &file, size);
    learning::moved_d(known, end);
}

// Copies a blit that is kept.
fn put_kept(words: &mut Laying<u16>, known: &mut Knowledge, raw: &[u16])
    requires { (words.old.at < 1000000) × (length raw.now ≤ 3) }
    ensures same_run { words.new.run.ghost_name ≡ words.old.run.ghost_name }
    ensures words { words.new.run.now ≡ laid raw.now words.old.at words.old.run.now }
    ensures place { words.new.at ≡ words.old.at + length raw.now }
    ensures learns { known.new.registers ≡ forgotten known.old.registers }
{
    output::put::put_copied(words, raw);
    learning::forgotten(known);
}

// Lays a blit, and answers whether it is kept for going round alone.
fn put_size(
    words: &mut Laying<u16>,
    n: usize,
    known: &mut Knowledge,
    size: u16,
    raw: &[u16],
) -> bool
    requires { (words.old.at < 1000000) × (length raw.now ≤ 3) }
    ensures same_run { words.new.run.ghost_name ≡ words.old.run.ghost_name }
    ensures put { Put n known.old.registers (steps.Step.Size size) raw.now words.old.at
        words.old.run.now words.new.run.now words.new.at known.new.registers result }
{
    match settled::settle::fate(n, known, size) {
        Fate::Settled => {
            put_blit(words, known, size);
            false
        }
        Fate::KeptForRound => {
            put_kept(words, known, raw);
            true
        }
        Fate::Kept => {
            put_kept(words, known, raw);
            false
        }
    }
}

// Lays what a step becomes, of which these are the words, and learns what is known after it; answers whether it is a
// blit that is kept for going round alone.
// A step's words are a slice of the job: that they are three at most is the decoder's to say, and no type's.
// The kinds are closed and each bears values of its own: a match tells them apart.
fn put_step(
    words: &mut Laying<u16>,
    n: usize,
    known: &mut Knowledge,
    step: Step,
    raw: &[u16],
) -> bool
    requires { (words.old.at < 1000000) × (length raw.now ≤ 3) }
    ensures same_run { words.new.run.ghost_name ≡ words.old.run.ghost_name }
    ensures put { Put n known.old.registers step raw.now words.old.at
        words.old.run.now words.new.run.now words.new.at known.new.registers result }
{
    match step {
        Step::Register { place, value } => {
            learning::written(known, place, value);
            output::put::put_copied(words, raw);
            false
        }
        Step::Size(size) => put_size(words, n, known, size, raw),
        // Two arms, though alike: of both kinds in one the check finds no proof that what is put is the step's own words.
        Step::Store { .. } => {
            output::put::put_copied(words, raw);
            false
        }
        Step::Flag(_) => {
            output::put::put_copied(words, raw);
            false
        }
    }
}

// Last of all, whether a folding of this length fits.
fn ended(at: usize, round: bool, out: &[u16]) -> Answer
    ensures { result
        ≡ (if not (leb at (length out.now)) || not (leb at job_most) then Err (record { why = TooLong; place = 0 }) else Ok (record { length = at; round = round })) }
{
    if out.len() < at || job::length::JOB_MOST < at {
        return Err(Stopped {
            why: Refusal::TooLong,
            place: 0,
        });
    }
    Ok(Done { length: at, round })
}

// Lays the folded job into a run, as far as that goes, and answers what its folding into the output gives.
pub fn folded(n: usize, job: &[u16], out: &[u16], run: &mut [u16]) -> Answer
    requires { length job.now ≤ job_most }
    ensures { Folded n job.now out.now run.old result run.new }
{
    let mut words = Laying { run, at: 0 };
    let mut from: usize = 0;
    let mut known = knowledge::knowledge::nothing();
    let mut round = false;
    loop {
        match job::reader::read_at(job, from) {
            Ok(Some((step, next))) => {
                round |= put_step(&mut words, n, &mut known, step, &job[from..next]);
                from = next;
            }
            Ok(None) => return ended(words.at, round, out),
            Err(why) => {
                return Err(Stopped {
                    why: Refusal::Step(why),
                    place: from,
                });
            }
        }
    }
}

// The first words of a run, into an output that has room for them. The run is as long as a job may be: how many of its
// words are the folded job stands beside it.
pub fn hand_out(run: &[u16], long: usize, out: &mut [u16])
    requires { (long ≤ length run.now) × (long ≤ length out.old) }
    ensures { out.new ≡ take long run.now ++ drop long out.old }
{
    out[..long].copy_from_slice(&run[..long]);
}
