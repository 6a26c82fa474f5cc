// An old register file, of 20 words, turned into a new one.
#![tactic(auto)]

pub mod answer;
pub mod theorems;
pub mod types;

ghost use Rattle.std.specs.Prelude.{◌≡◌, length};
ghost use Rattle.file.specs.Places.{file_length};
ghost use Rattle.widen.specs.Old.{old_length, old_accepted};
ghost use Rattle.widen.specs.Widen.{widened, widening, left};

use crate::types::Refusal;

// The old file is 20 words, and no bit is set that isn't kept.
fn old_accepted(old: &[u16]) -> bool
    ensures { result ≡ old_accepted old.now }
{
    if old.len() != 20 {
        return false;
    }
    file::keeps(old, 19) & (old[19] <= 1)
}

// Lays the new file's words over the target's: black colours and COPCON 0, but for the first 19 words and the flag.
fn lay(old: &[u16], target: &mut [u16])
    requires { (length old.now ≡ old_length) × (length target.old ≡ file_length) }
    ensures { target.new ≡ widened old.now }
{
    target.fill(0);
    target[..19].copy_from_slice(&old[..19]);
    target[file::FLAG as usize] = old[19];
}

// Turns an old file into a new one with black colours and COPCON 0. A refusal leaves the target unchanged.
pub fn widen(old: &[u16], target: &mut [u16]) -> Result<(), Refusal>
    ensures { left result target.new
        ≡ widening old.now target.old }
{
    if !old_accepted(old) {
        return Err(Refusal::OldFile);
    }
    if target.len() != file::WORDS {
        return Err(Refusal::TargetLength);
    }
    lay(old, target);
    Ok(())
}
