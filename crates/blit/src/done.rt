// A blit that is done, an area's or a line's, and what it writes back to the register file. Each of the two has its own
// code: in one function they would share the processor's registers, which costs a line of 320 dots one instruction a dot.
ghost use Rattle.std.specs.Prelude.{◌≡◌, Ok};
ghost use Rattle.area.specs.Flow.{state};
ghost use Rattle.blit.specs.Blit.{finished, drawn, area_done, line_done, done, left};
ghost use Rattle.refusal.specs.Plan.{area_plan, line_plan, plan};
ghost use Rattle.round.specs.Channel.{area_round};
ghost use Rattle.round.specs.Line.{line_round};

use crate::types::Done;
use area::types::Flow;
use refusal::types::{AreaPlan, LinePlan, Plan};

// All rows of an area blit that nothing refuses, by its plan.
fn finished(ram: &mut [u16], file: &[u16], size: u16, by: AreaPlan) -> Flow
    requires { by ≡ area_plan file.now size }
    ensures { state ram.new result ≡ finished ram.old file.now size }
{
    let flow = area::flow::start_from(by.pointers, file);
    engine::area_blit(ram, by.setup, by.width as u32, by.height as u32, flow)
}

// Does it, writes back what it leaves, and answers the count of words stored and whether a channel went round. That is
// told first: afterwards the plan would have to be kept through the word loops.
#[inline(never)]
fn area_done(ram: &mut [u16], file: &mut [u16], size: u16, by: AreaPlan) -> Done
    requires { by ≡ area_plan file.old size }
    ensures { left (Ok result) ram.new file.new
        ≡ area_done file.old (area_round (area_plan file.old size))
        (finished ram.old file.old size) }
{
    let round = round::area_round(by);
    let end = finished(ram, file, size, by);
    crate::registers::write_back(file, by.setup.uses, end);
    Done {
        stored: end.stored,
        round,
    }
}

// The same of a line; there whether it went round is told last, for its one loop has no register to spare.
#[inline(never)]
fn line_done(ram: &mut [u16], file: &mut [u16], size: u16, by: LinePlan) -> Done
    requires { by ≡ line_plan file.old size }
    ensures { left (Ok result) ram.new file.new
        ≡ line_done file.old (line_round (line_plan file.old size))
        (drawn ram.old file.old size) }
{
    let drawn = drawing::draw::line_blit(ram, by.line, by.dots as u32, by.first);
    drawing::leave::leave(file, drawn);
    Done {
        stored: drawn.stored,
        round: round::line_round(by),
    }
}

// Does a blit that nothing refuses, by its plan.
pub fn done(ram: &mut [u16], file: &mut [u16], size: u16, by: Plan) -> Done
    requires { by ≡ plan file.old size }
    ensures { left (Ok result) ram.new file.new
        ≡ done ram.old file.old size }
{
    match by {
        Plan::Area(area) => area_done(ram, file, size, area),
        Plan::Line(line) => line_done(ram, file, size, line),
    }
}
