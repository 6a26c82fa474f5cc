// What is proved of a blit by its words; each function has its theorem as its contract, and does nothing.
ghost use Rattle.quiet.specs.Quiet.{FoundBlit, QuietBlit};

pub fn found_blit()
    ensures { FoundBlit }
{}

pub fn quiet_blit()
    ensures { QuietBlit }
{}
