// The refusals of a blit, in the order of the paper, and what a lawful one goes by.
#![tactic(auto)]

mod channels;
mod line_rules;
pub mod theorems;
mod touch;
pub mod types;

ghost use Rattle.std.specs.Prelude.{◌≡◌, ◌<◌};
ghost use Rattle.word.specs.Pointer.{pointer_end};
ghost use Rattle.word.specs.Choice.{given};
ghost use Rattle.file.specs.File.{con1};
ghost use Rattle.refusal.specs.Plan.{area_plan, plan};
ghost use Rattle.refusal.specs.Refusal.{both_fills, fill_upward, leaving, area_rules, step_refusal, refusal};
ghost use Rattle.refusal.specs.Touch.{channel_leaves};
ghost use Rattle.refusal.specs.Refusal.{verdict_number, handed};
ghost use Rattle.refusal.specs.Inner.AreaRange.{AreaRange};
ghost use Rattle.refusal.specs.Inner.Channels.{checked};

use crate::types::{AreaPlan, Channel, Plan, Refusal};
use word::pointer::POINTER_END;

fn both_fills(con1: u16) -> bool
    ensures { result ≡ both_fills con1 }
{
    word::control::exclusive_fill(con1) & word::control::inclusive_fill(con1)
}

fn fill_upward(con1: u16) -> bool
    ensures { result ≡ fill_upward con1 }
{
    let filled = word::control::exclusive_fill(con1) | word::control::inclusive_fill(con1);
    filled & !word::control::descending(con1)
}

// What an area blit goes by.
fn area_plan(file: &[u16], size: u16) -> AreaPlan
    ensures { result ≡ area_plan file.now size }
{
    let setup = area::setup::setup(file);
    let pointers = area::flow::pointers(file);
    let width = word::size::width(size) as u8;
    let height = word::size::height(size) as u16;
    AreaPlan {
        setup,
        pointers,
        width,
        height,
    }
}

// One channel's test.
#[inline(always)]
fn stays(n: usize, channel: Channel, why: Refusal) -> Result<(), Refusal>
    requires { n < pointer_end }
    ensures { result
        ≡ checked (channel_leaves n channel.direction channel.used channel.width channel.modulo channel.rows channel.pointer) why }
{
    if channel.leaves(n) {
        return Err(why);
    }
    Ok(())
}

// The channels in the order A, B, C, D: the first that leaves memory is told. Memory as long as a pointer reaches is left by
// none.
fn leaving(n: usize, by: AreaPlan) -> Result<(), Refusal>
    requires { AreaRange by }
    ensures { verdict_number result ≡ leaving n by }
{
    if (POINTER_END as usize) <= n {
        return Ok(());
    }
    stays(n, by.a(), Refusal::ALeaves)?;
    stays(n, by.b(), Refusal::BLeaves)?;
    stays(n, by.c(), Refusal::CLeaves)?;
    stays(n, by.d(), Refusal::DLeaves)
}

// The refusal of an area blit.
fn area_refusal(n: usize, file: &[u16], size: u16, control: u16) -> Result<Plan, Refusal>
    requires { control ≡ con1 file.now }
    ensures { (verdict_number result ≡ given (area_rules n file.now size))
        × (handed result (Plan.Area (area_plan file.now size)) ≡ Plan.Area (area_plan file.now size)) }
{
    if both_fills(control) {
        return Err(Refusal::BothFills);
    }
    if fill_upward(control) {
        return Err(Refusal::FillUpward);
    }
    let by = area_plan(file, size);
    leaving(n, by)?;
    Ok(Plan::Area(by))
}

// The refusal of a job's blit, whose memory and file have been taken.
pub fn step_refusal(n: usize, file: &[u16], size: u16) -> Result<Plan, Refusal>
    ensures { (verdict_number result ≡ step_refusal n file.now size)
        × (handed result (plan file.now size) ≡ plan file.now size) }
{
    let control = word::memory::read(file, file::CONTROL_1);
    if word::control::line(control) {
        return crate::line_rules::line_refusal(n, file, size);
    }
    area_refusal(n, file, size, control)
}

// The refusal alone, from N, file and size: whether a blit on n words of memory would be done, and what it goes by then.
pub fn refusal(n: usize, file: &[u16], size: u16) -> Result<Plan, Refusal>
    ensures { (verdict_number result ≡ refusal n file.now size)
        × (handed result (plan file.now size) ≡ plan file.now size) }
{
    if word::memory::memory_size(n) {
        return Err(Refusal::MemorySize);
    }
    if !file::accepted(file) {
        return Err(Refusal::RegisterFile);
    }
    step_refusal(n, file, size)
}
