// The Copper: a list run for one frame over lent memory and a lent register file, by the contract of one instruction.
#![tactic(auto)]

mod onward;
pub mod types;

ghost use Rattle.std.specs.Prelude.{◌≡◌};
ghost use Rattle.copper.specs.Frame.{frame, frame_from};
ghost use Rattle.copper.specs.Answer.{left};

use crate::types::{Answer, Why};
use instruction::types::{Position, Refusal};

// A refusal before any instruction.
fn refused_at_start(why: refusal::types::Refusal, beam: u32) -> Answer
    ensures { result
        ≡ record {
          why = Why.Refused (Refusal.Blit why);
          done = 0;
          here = record { beam = beam; word = 0 };
        } }
{
    Answer {
        why: Why::Refused(Refusal::Blit(why)),
        done: 0,
        here: Position { beam, word: 0 },
    }
}

// Runs the rest of a frame from a place of the beam on. A refused instruction changes nothing.
pub fn frame_from(ram: &mut [u16], file: &mut [u16], beam: u32, start: u32, lent: u32) -> Answer
    ensures { left result ram.new file.new
        ≡ frame_from ram.old file.old beam start lent }
{
    if word::memory::memory_size(ram.len()) {
        return refused_at_start(refusal::types::Refusal::MemorySize, beam);
    }
    if !file::accepted(file) {
        return refused_at_start(refusal::types::Refusal::RegisterFile, beam);
    }
    crate::onward::onward(ram, file, Position { beam, word: start }, lent)
}

// Runs a list for one frame.
pub fn frame(ram: &mut [u16], file: &mut [u16], start: u32, lent: u32) -> Answer
    ensures { left result ram.new file.new
        ≡ frame ram.old file.old start lent }
{
    frame_from(ram, file, 0, start, lent)
}
