// The refusals of a line, in the order of the paper, and what a lawful one goes by.
ghost use Rattle.std.specs.Prelude.{◌≡◌};
ghost use Rattle.word.specs.Choice.{given};
ghost use Rattle.refusal.specs.Plan.{line_plan};
ghost use Rattle.refusal.specs.Refusal.{other_form, pointers_differ, line_rules, verdict_number, handed};

use crate::types::{LinePlan, Plan, Refusal};
use word::types::Uses;

fn other_form(uses: Uses, width: u32) -> bool
    ensures { result ≡ other_form uses width }
{
    (width != 2) | !(uses.a & !uses.b & uses.c & uses.d)
}

fn pointers_differ(file: &[u16]) -> bool
    ensures { result ≡ pointers_differ file.now }
{
    let c = file::pointer_at(file, file::POINTER_C);
    let d = file::pointer_at(file, file::POINTER_D);
    c.word != d.word
}

// What a line goes by.
fn line_plan(file: &[u16], size: u16) -> LinePlan
    ensures { result ≡ line_plan file.now size }
{
    let line = line::setup::line_setup(file);
    let first = line::setup::first_dot(file);
    let dots = word::size::height(size) as u16;
    LinePlan { line, first, dots }
}

pub fn line_refusal(n: usize, file: &[u16], size: u16) -> Result<Plan, Refusal>
    ensures { (verdict_number result ≡ given (line_rules n file.now size))
        × (handed result (Plan.Line (line_plan file.now size)) ≡ Plan.Line (line_plan file.now size)) }
{
    let uses = word::control::uses(word::memory::read(file, file::CONTROL_0));
    if other_form(uses, word::size::width(size)) {
        return Err(Refusal::LineForm);
    }
    if pointers_differ(file) {
        return Err(Refusal::LineApart);
    }
    let by = line_plan(file, size);
    let line = by.line;
    let first = by.first;
    if crate::touch::line_leaves(n, line, by.dots as u32, first) {
        return Err(Refusal::CLeaves);
    }
    Ok(Plan::Line(by))
}
