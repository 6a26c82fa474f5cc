// What is proved of one word's definitions; each function has its theorem as its contract, and does nothing.
ghost use Rattle.word.specs.ShiftOfNought.{ShiftOfNought};
ghost use Rattle.word.specs.EverySizeHasAWord.{EverySizeHasAWord};

pub fn shift_of_nought()
    ensures { ShiftOfNought }
{}

pub fn every_size_has_a_word()
    ensures { EverySizeHasAWord }
{}
