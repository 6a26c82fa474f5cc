// Worked examples of the decoder; the function has them as its contract, and does nothing.
ghost use Rattle.job.specs.Examples.{FirstWords};

pub fn first_words()
    ensures { FirstWords }
{}
