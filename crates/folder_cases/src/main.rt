// Folds jobs and prints what the foldings give and leave: paper 01's "Run and compared" cases, lengths at their bounds,
// blits settled and kept, what is known after them, each number of the folder's, and blits that go round. What it must
// print is written out beside it, from the papers.
#![tactic(auto)]

use std::io;

mod blits;
mod known;
mod lengths;
mod paper;
mod print;
mod refusals;
mod rounds;

fn main(rt: HostRuntime) -> io::Result<()> {
    paper::all(&rt)?;
    lengths::all(&rt)?;
    blits::all(&rt)?;
    known::all(&rt)?;
    refusals::all(&rt)?;
    rounds::all(&rt)
}
