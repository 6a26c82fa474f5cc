// What is proved of the refusals' definition; each function has its theorem as its contract, and does nothing.
ghost use Rattle.refusal.specs.OneAnswer.{OneAnswer, OneStepAnswer};

pub fn one_answer()
    ensures { OneAnswer }
{}

pub fn one_step_answer()
    ensures { OneStepAnswer }
{}
