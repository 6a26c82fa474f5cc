// Whether a blit is settled.
ghost use Rattle.std.specs.Prelude.{◌≡◌, ◌*◌, eqb, leb, if◌then◌else◌};
ghost use Rattle.word.specs.Size.{height, width};
ghost use Rattle.word.specs.Control.{function};
ghost use Rattle.refusal.specs.Plan.{plan};
ghost use Rattle.refusal.specs.Refusal.{step_refusal};
ghost use Rattle.round.specs.Round.{goes_round};
ghost use Rattle.settled.specs.Settled.{controls_known, has, only_d_used, sources_known};
ghost use Rattle.settled.specs.Inner.Fate.{by_round, fate};
ghost use Rattle.settled.specs.declared.types.Fate.TheVariants.{Kept};

use crate::types::Fate;
use knowledge::types::Knowledge;
use refusal::types::Plan;

fn has(known: &Knowledge, place: u32) -> bool
    ensures { result ≡ has known.now.registers place }
{
    known.at(place).is_some()
}

#[tactic(auto, unfolding(crate::specs::Settled::controls_known))]
fn controls_known(known: &Knowledge) -> bool
    ensures { result ≡ controls_known known.now.registers }
{
    has(known, file::CONTROL_0)
        & has(known, file::CONTROL_1)
        & has(known, file::POINTER_D)
        & has(known, file::POINTER_D + 1)
        & has(known, file::MODULO_D)
}

#[tactic(auto, unfolding(crate::specs::Settled::only_d_used))]
fn only_d_used(con0: u16) -> bool
    ensures { result ≡ only_d_used con0 }
{
    let uses = word::control::uses(con0);
    !uses.a & !uses.b & !uses.c & uses.d
}

#[tactic(auto, unfolding(crate::specs::Settled::sources_known))]
fn sources_known(con0: u16, known: &Knowledge) -> bool
    ensures { result ≡ sources_known (function con0) known.now.registers }
{
    let depends = depends::depends::depends(word::control::function(con0));
    let masks = has(known, file::FIRST_MASK) & has(known, file::LAST_MASK);
    let a = !depends.a | (has(known, file::SOURCE_A) & masks);
    let b = !depends.b | has(known, file::SOURCE_B);
    let c = !depends.c | has(known, file::SOURCE_C);
    a & b & c
}

// A blit that every other condition settles: kept if it goes round.
#[tactic(auto, unfolding(crate::specs::Inner::Fate::by_round))]
fn by_round(round: bool) -> Fate
    ensures { result ≡ by_round round }
{
    if round {
        return Fate::KeptForRound;
    }
    Fate::Settled
}

// Whether a lawful blit goes round, by its plan.
fn goes_round(file: &[u16], size: u16, by: Plan) -> bool
    requires { by ≡ plan file.now size }
    ensures { result ≡ goes_round file.now size }
{
    match by {
        Plan::Area(area) => round::area_by_rows(area),
        Plan::Line(line) => round::line_round(line),
    }
}

// A blit for which the conditions hold that go without N: by its verdict, and by its moves where it is lawful.
fn by_verdict(n: usize, file: &[u16], size: u16) -> Fate
    ensures { result
        ≡ (if eqb (step_refusal n file.now size) 0 then by_round (goes_round file.now size) else Kept) }
{
    match refusal::step_refusal(n, file, size) {
        Ok(by) => by_round(goes_round(file, size, by)),
        Err(_) => Fate::Kept,
    }
}

fn small(size: u16) -> bool
    ensures { result ≡ leb (height size * width size) 64 }
{
    word::size::height(size) * word::size::width(size) <= 64
}

// The conditions in the order of what they cost: a blit's rows are looked at only where it is small and all else holds,
// and its moves last.
pub fn fate(n: usize, known: &Knowledge, size: u16) -> Fate
    ensures { result ≡ fate n known.now.registers size }
{
    if !small(size) {
        return Fate::Kept;
    }
    if !controls_known(known) {
        return Fate::Kept;
    }
    let file = known.numbers();
    let con0 = file[file::CONTROL_0 as usize];
    if !only_d_used(con0) {
        return Fate::Kept;
    }
    if !sources_known(con0, known) {
        return Fate::Kept;
    }
    by_verdict(n, &file, size)
}
