// What is demanded of a folding, of a line, and of COPCON and the colours; each function has its theorem as its contract, and does nothing.
#![tactic(auto)]

ghost use Rattle.demands.specs.DemandThree.{DemandThree};
ghost use Rattle.demands.specs.SettledAreReplaced.{SettledAreReplaced};
ghost use Rattle.demands.specs.ALineIsNeverSettled.{ALineIsNeverSettled};
ghost use Rattle.demands.specs.ASettledBlitNeverGoesRound.{ASettledBlitNeverGoesRound};
ghost use Rattle.demands.specs.ScreenTouchesNeither.{ScreenTouchesNeither};

pub fn demand_three()
    ensures { DemandThree }
{}

pub fn settled_are_replaced()
    ensures { SettledAreReplaced }
{}

pub fn a_line_is_never_settled()
    ensures { ALineIsNeverSettled }
{}

pub fn a_settled_blit_never_goes_round()
    ensures { ASettledBlitNeverGoesRound }
{}

pub fn screen_touches_neither()
    ensures { ScreenTouchesNeither }
{}
