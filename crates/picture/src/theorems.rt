// What is proved of a picture's definition; each function has its theorem as its contract, and does nothing.
ghost use Rattle.picture.specs.OneAnswer.{OneAnswer};
ghost use Rattle.picture.specs.DelayOfNought.{DelayOfNought};
ghost use Rattle.picture.specs.DelayMovesRight.{DelayMovesRight};
ghost use Rattle.picture.specs.OnePlaneTwoColours.{OnePlaneTwoColours};
ghost use Rattle.picture.specs.TwelveBits.{TwelveBits};

pub fn one_answer()
    ensures { OneAnswer }
{}

pub fn delay_of_nought()
    ensures { DelayOfNought }
{}

pub fn delay_moves_right()
    ensures { DelayMovesRight }
{}

pub fn one_plane_two_colours()
    ensures { OnePlaneTwoColours }
{}

pub fn twelve_bits()
    ensures { TwelveBits }
{}
