// What is proved of the folding's definition; the function has its theorem as its contract, and does nothing.
ghost use Rattle.folder.specs.OneAnswer.{OneAnswer};

pub fn one_answer()
    ensures { OneAnswer }
{}
