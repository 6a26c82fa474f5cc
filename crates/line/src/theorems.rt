// What is proved of a line's definition; each function has its theorem as its contract, and does nothing.
ghost use Rattle.line.specs.Octants.{OctantsHold};

pub fn octants_hold()
    ensures { OctantsHold }
{}
