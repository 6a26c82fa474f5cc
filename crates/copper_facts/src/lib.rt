// What is proved of the Copper's definitions; each function has its theorem as its contract, and does nothing.
#![tactic(auto)]

ghost use Rattle.copper_facts.specs.BeamGoesForward.{BeamGoesForward};
ghost use Rattle.copper_facts.specs.EveryFrameEnds.{EveryFrameEnds};
ghost use Rattle.copper_facts.specs.AcceptedAgain.{AcceptedAgain};
ghost use Rattle.copper_facts.specs.CutAndGoOn.{CutAndGoOn};
ghost use Rattle.copper_facts.specs.RefusedChangesNothing.{RefusedChangesNothing};
ghost use Rattle.copper_facts.specs.WhyExactly.{WhyExactly};
ghost use Rattle.copper_facts.specs.OneAnswer.{OneAnswer};
ghost use Rattle.copper_facts.specs.ManualHolds.{ManualHolds};

pub fn beam_goes_forward()
    ensures { BeamGoesForward }
{}

pub fn every_frame_ends()
    ensures { EveryFrameEnds }
{}

pub fn accepted_again()
    ensures { AcceptedAgain }
{}

pub fn cut_and_go_on()
    ensures { CutAndGoOn }
{}

pub fn refused_changes_nothing()
    ensures { RefusedChangesNothing }
{}

pub fn why_exactly()
    ensures { WhyExactly }
{}

pub fn one_answer()
    ensures { OneAnswer }
{}

pub fn manual_holds()
    ensures { ManualHolds }
{}
