// Whether a blit goes round: whether a pointer of its channels does between two of its accesses.
#![tactic(auto)]

mod channel;
mod course;

ghost use Rattle.std.specs.Prelude.{◌≡◌, true, false};
ghost use Rattle.round.specs.Channel.{area_round};
ghost use Rattle.round.specs.Line.{line_round};
ghost use Rattle.refusal.specs.Inner.AreaRange.{AreaRange};
ghost use Rattle.round.specs.Inner.Ranges.{LineRange};

use crate::channel::{channel_clear, channel_round};
use refusal::types::{AreaPlan, LinePlan};

// A quick look at every channel.
fn all_clear(by: AreaPlan) -> bool
    requires { AreaRange by }
    ensures { result ≡ true → area_round by ≡ false }
{
    if !channel_clear(by.a()) {
        return false;
    }
    if !channel_clear(by.b()) {
        return false;
    }
    if !channel_clear(by.c()) {
        return false;
    }
    channel_clear(by.d())
}

// Every channel row by row, A to D; for a blit of a few words that is quick enough.
pub fn area_by_rows(by: AreaPlan) -> bool
    requires { AreaRange by }
    ensures { result ≡ area_round by }
{
    if channel_round(by.a()) {
        return true;
    }
    if channel_round(by.b()) {
        return true;
    }
    if channel_round(by.c()) {
        return true;
    }
    channel_round(by.d())
}

// The channels of an area blit: nearly always the quick look tells. One place calls it, so that it is put there whole.
pub fn area_round(by: AreaPlan) -> bool
    requires { AreaRange by }
    ensures { result ≡ area_round by }
{
    if all_clear(by) {
        return false;
    }
    area_by_rows(by)
}

// A line's C, dot by dot; at once where its dots can't come near an end.
pub fn line_round(by: LinePlan) -> bool
    requires { LineRange by.dots by.first }
    ensures { result ≡ line_round by }
{
    crate::course::course_round(by.line, by.dots as u32, by.first)
}
