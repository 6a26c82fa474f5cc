// The worked examples of paper 01, proved together; the function has them as its contract, and does nothing.
#![tactic(auto)]

ghost use Rattle.examples.specs.Examples.{ExamplesHold};

pub fn examples_hold()
    ensures { ExamplesHold }
{}
