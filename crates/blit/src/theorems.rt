// What is proved of the blit's definition; each function has its theorem as its contract, and does nothing.
ghost use Rattle.blit.specs.OnlyDChanges.{OnlyDChanges, WithoutDNothingChanges};
ghost use Rattle.blit.specs.UnusedStay.{UnusedStay};
ghost use Rattle.blit.specs.ALine.{OnlyDotsChange, AWordARow, OthersAsBefore};
ghost use Rattle.blit.specs.CopyOfOneRow.{CopyOfOneRow};
ghost use Rattle.blit.specs.CopyOfARectangle.{CopyOfARectangle};
ghost use Rattle.blit.specs.WhenItIsSafe.{WhenItIsSafe};
ghost use Rattle.blit.specs.AcceptedAgain.{AcceptedAgain};
ghost use Rattle.blit.specs.OneAnswer.{OneAnswer, OneStepAnswer};

pub fn only_d_changes()
    ensures { OnlyDChanges }
{}

pub fn without_d_nothing_changes()
    ensures { WithoutDNothingChanges }
{}

pub fn unused_stay()
    ensures { UnusedStay }
{}

pub fn only_dots_change()
    ensures { OnlyDotsChange }
{}

pub fn a_word_a_row()
    ensures { AWordARow }
{}

pub fn others_as_before()
    ensures { OthersAsBefore }
{}

pub fn copy_of_one_row()
    ensures { CopyOfOneRow }
{}

pub fn copy_of_a_rectangle()
    ensures { CopyOfARectangle }
{}

pub fn when_it_is_safe()
    ensures { WhenItIsSafe }
{}

pub fn accepted_again()
    ensures { AcceptedAgain }
{}

pub fn one_answer()
    ensures { OneAnswer }
{}

pub fn one_step_answer()
    ensures { OneStepAnswer }
{}
