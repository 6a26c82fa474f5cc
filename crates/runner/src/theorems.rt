// What is proved of the run's definition; each function has its theorem as its contract, and does nothing.
ghost use Rattle.runner.specs.RunAppend.{RunAppend};
ghost use Rattle.runner.specs.RefusedRunStands.{RefusedRunStands};
ghost use Rattle.runner.specs.EachNumberExactly.{EachNumberExactly};
ghost use Rattle.runner.specs.OrOfItsBlits.{OrOfItsBlits};
ghost use Rattle.runner.specs.AcceptedAgain.{AcceptedAgain};
ghost use Rattle.runner.specs.OneAnswer.{OneAnswer};

pub fn run_append()
    ensures { RunAppend }
{}

pub fn refused_run_stands()
    ensures { RefusedRunStands }
{}

pub fn each_number_exactly()
    ensures { EachNumberExactly }
{}

pub fn or_of_its_blits()
    ensures { OrOfItsBlits }
{}

pub fn accepted_again()
    ensures { AcceptedAgain }
{}

pub fn one_answer()
    ensures { OneAnswer }
{}
