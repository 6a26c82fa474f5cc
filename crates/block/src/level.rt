// The same word all along, and whether all words are nought.
ghost use Rattle.std.specs.Prelude.{◌≡◌, ◌≤◌};
ghost use Rattle.block.specs.Inner.Each.{at, Each, level_at, nought};

use crate::types::Words;

#[tactic(auto, unfolding(crate::specs::Inner::Each::Each, crate::specs::Inner::Each::level_at))]
pub fn level(word: u16, n: usize, x: &mut Words)
    requires { n ≤ 80 }
    ensures { Each n x.new (level_at word) }
{
    x[..n].fill(word);
}

// Words are nought where no bit of any is set.
pub fn nought(n: usize, o: &Words) -> bool
    requires { n ≤ 80 }
    ensures { result ≡ nought n (at o.now) }
{
    let mut any = 0;
    for i in 0..n {
        any |= o[i];
    }
    any == 0
}
