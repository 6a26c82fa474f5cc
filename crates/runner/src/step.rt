// One step taken.
ghost use Rattle.std.specs.Prelude.{◌≡◌};
ghost use Rattle.blit.specs.Blit.{blit_step};
ghost use Rattle.job.specs.declared.types.Step as steps;
ghost use Rattle.runner.specs.Effect.{step_effect};
ghost use Rattle.runner.specs.Answer.{left_by_step};

use crate::types::{NONE_DONE, Refusal, Taken};
use blit::types::Done;
use job::types::Step;

fn register_step(ram: &[u16], file: &mut [u16], place: u32, value: u16) -> Taken
    ensures { left_by_step result ram.now file.new
        ≡ step_effect (steps.Step.Register place value) ram.now file.old }
{
    word::memory::write(file, place, file::kept(place, value));
    Ok(NONE_DONE)
}

fn size_step(ram: &mut [u16], file: &mut [u16], size: u16) -> Taken
    ensures { left_by_step result ram.new file.new
        ≡ blit_step ram.old file.old size }
{
    Ok(blit::blit_step(ram, file, size)?)
}

fn store_step(ram: &mut [u16], file: &[u16], to: u32, value: u16) -> Taken
    ensures { left_by_step result ram.new file.now
        ≡ step_effect (steps.Step.Store to value) ram.old file.now }
{
    if ram.len() <= to as usize {
        return Err(Refusal::StoreOutside);
    }
    word::memory::write(ram, to, value);
    Ok(Done {
        stored: 1,
        round: false,
    })
}

fn flag_step(ram: &[u16], file: &mut [u16], value: u16) -> Taken
    ensures { left_by_step result ram.now file.new
        ≡ step_effect (steps.Step.Flag value) ram.now file.old }
{
    word::memory::write(file, file::FLAG, value);
    Ok(NONE_DONE)
}

// Takes a step. A refused one changes nothing.
// The kinds are closed and each bears values of its own: a match tells them apart.
pub fn take(ram: &mut [u16], file: &mut [u16], step: Step) -> Taken
    ensures { left_by_step result ram.new file.new
        ≡ step_effect step ram.old file.old }
{
    match step {
        Step::Register { place, value } => register_step(ram, file, place, value),
        Step::Size(size) => size_step(ram, file, size),
        Step::Store { to, value } => store_step(ram, file, to, value),
        Step::Flag(value) => flag_step(ram, file, value),
    }
}
