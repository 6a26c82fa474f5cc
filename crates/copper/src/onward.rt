// The instructions of a list, one after the other.
ghost use Rattle.std.specs.Prelude.{◌≡◌, ◌≤◌, length};
ghost use Rattle.word.specs.Pointer.{pointer_end};
ghost use Rattle.instruction.specs.Effect.{moment};
ghost use Rattle.copper.specs.Frame.{onward};
ghost use Rattle.copper.specs.Answer.{left};

use crate::types::{Answer, Why};
use instruction::types::Position;

// Takes instructions to the end of the frame, or until the lent number is used up, or to the first refused one.
pub fn onward(ram: &mut [u16], file: &mut [u16], start: Position, lent: u32) -> Answer
    requires { length ram.old ≤ pointer_end }
    ensures { left result ram.new file.new
        ≡ onward lent 0 (moment ram.old file.old start.beam start.word) }
{
    let mut here = start;
    for done in 0..lent {
        if beam::END <= here.beam {
            return Answer {
                why: Why::EndOfFrame,
                done,
                here,
            };
        }
        match instruction::effect(ram, file, here) {
            Ok(next) => here = next,
            Err(why) => {
                return Answer {
                    why: Why::Refused(why),
                    done,
                    here,
                };
            }
        }
    }
    let why = if beam::END <= here.beam {
        Why::EndOfFrame
    } else {
        Why::UsedUp
    };
    Answer {
        why,
        done: lent,
        here,
    }
}
