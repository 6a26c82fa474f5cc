// The masks of A's first and last word in a row.
ghost use Rattle.std.specs.Prelude.{◌≡◌};
ghost use Rattle.word.specs.Mask.{masked_when, masked};

fn masked_when(applies: bool, mask: u16, word: u16) -> u16
    ensures { result ≡ masked_when applies mask word }
{
    if applies {
        return word & mask;
    }
    word
}

pub fn masked(first: bool, last: bool, afwm: u16, alwm: u16, word: u16) -> u16
    ensures { result ≡ masked first last afwm alwm word }
{
    masked_when(last, alwm, masked_when(first, afwm, word))
}
