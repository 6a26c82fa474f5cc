// The decoder: what stands at a place of a job.
ghost use Rattle.std.specs.Prelude.{◌≡◌, ◌+◌, ◌<◌, ◌^◌, Some, length};
ghost use Rattle.job.specs.Kind.{kind};
ghost use Rattle.job.specs.Step.{begun, step_at};

use crate::types::{Kind, Read, Refusal, Step};

// What a first word begins. Past the table and 058, no word below 8000 begins a step.
pub fn kind(first: u16) -> Option<Kind>
    ensures { result ≡ kind first }
{
    let place = file::place(first);
    if place < file::FLAG {
        return Some(Kind::Register(place));
    }
    match first {
        0x058 => Some(Kind::Size),
        0x8000..=0x8007 => Some(Kind::Store(first - 0x8000)),
        0xC000 => Some(Kind::Flag(0)),
        0xC001 => Some(Kind::Flag(1)),
        _ => None,
    }
}

// The step whose first word stands at a place of a job, by what that word begins and by the words after it.
// A store's refusals come in their order: cut off, then odd.
// The kinds are closed and each bears values of its own: a match tells them apart.
fn begun(kind: Kind, at: usize, rest: &[u16]) -> Read
    requires { at + length rest.now < 2 ^ 63 }
    ensures { result ≡ begun (Some kind) at rest.now }
{
    match (kind, rest) {
        (Kind::Register(place), [value, ..]) => Ok(Some((
            Step::Register {
                place,
                value: *value,
            },
            at + 2,
        ))),
        (Kind::Size, [value, ..]) => Ok(Some((Step::Size(*value), at + 2))),
        (Kind::Store(_), [low, _, ..]) if *low % 2 == 1 => Err(Refusal::OddStore),
        (Kind::Store(high), [low, value, ..]) => Ok(Some((
            Step::Store {
                to: word::pointer::pointer(high, *low).word,
                value: *value,
            },
            at + 3,
        ))),
        (Kind::Flag(flag), _) => Ok(Some((Step::Flag(flag), at + 1))),
        _ => Err(Refusal::CutOff),
    }
}

// What stands at a place of a job, at any place: past the last word it is the end. The place stands beside the job:
// where the next step stands is counted from the job's front.
pub fn step_at(job: &[u16], at: usize) -> Read
    ensures { result ≡ step_at job.now at }
{
    if job.len() <= at {
        return Ok(None);
    }
    let Some(begins) = kind(job[at]) else {
        return Err(Refusal::NoStep);
    };
    begun(begins, at, &job[at + 1..])
}
