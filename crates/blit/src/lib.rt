// The blit, an area's or a line's: refused, or done and the register file written back.
#![tactic(auto)]

pub mod answer;
mod done;
mod registers;
pub mod theorems;
pub mod types;

ghost use Rattle.std.specs.Prelude.{◌≡◌};
ghost use Rattle.blit.specs.Blit.{blit_step, blit, left};

use crate::types::Done;
use refusal::types::Refusal;

// Memory, register file and size stay three arguments, here and below: each is lent or told by C as it is.

// Does a blit. A refused one changes nothing.
pub fn blit(ram: &mut [u16], file: &mut [u16], size: u16) -> Result<Done, Refusal>
    ensures { left result ram.new file.new
        ≡ blit ram.old file.old size }
{
    let by = refusal::refusal(ram.len(), file, size)?;
    Ok(crate::done::done(ram, file, size, by))
}

// Does the blit of a job's step, whose memory and file have been taken. A refused one changes nothing.
pub fn blit_step(ram: &mut [u16], file: &mut [u16], size: u16) -> Result<Done, Refusal>
    ensures { left result ram.new file.new
        ≡ blit_step ram.old file.old size }
{
    let by = refusal::step_refusal(ram.len(), file, size)?;
    Ok(crate::done::done(ram, file, size, by))
}
