// What is proved of stores gathered; the function has the theorem as its contract, and does nothing.
ghost use Rattle.groups.specs.GathersTheLongest.{GathersTheLongest};

pub fn gathers_the_longest()
    ensures { GathersTheLongest }
{}
