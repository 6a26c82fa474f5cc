// What is proved of a widening's definition; each function has its theorem as its contract, and does nothing.
ghost use Rattle.widen.specs.OneAnswer.{OneAnswer};
ghost use Rattle.widen.specs.WidenedIsAccepted.{WidenedIsAccepted};

pub fn one_answer()
    ensures { OneAnswer }
{}

pub fn widened_is_accepted()
    ensures { WidenedIsAccepted }
{}
