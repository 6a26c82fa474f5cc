// The word of one dot: A and the texture with what memory holds, and whether it is stored.
ghost use Rattle.std.specs.Prelude.{◌≡◌, ◌/◌, ◌^◌, ◌<◌};
ghost use Rattle.line.specs.Word.{dot_word};
ghost use Rattle.line.specs.Sing.{is_stored};
ghost use Rattle.line.specs.Inner.Walk.{dot_of};

use crate::marks::Mark;
use crate::types::Line;
use word::bits::is_set;

fn shifted(a: u16, n: u32) -> u16
    requires { n < 16 }
    ensures { result ≡ a / 2 ^ n }
{
    a >> n
}

// The logic function is taken with B all ones or with B zero, and so comes to half of its bits.
pub fn dot_word(line: Line, mark: Mark, c: u16) -> u16
    ensures { result ≡ dot_word line (dot_of mark) c }
{
    let shift = crate::walk::shift_of(mark);
    let a = shifted(line.a, shift);
    if is_set(line.texture, mark.bit % 16) {
        return word::logic::logic(line.function, a, 0xFFFF, c);
    }
    word::logic::logic(line.function, a, 0, c)
}

pub fn is_stored(line: Line, mark: Mark) -> bool
    ensures { result ≡ is_stored line (dot_of mark) }
{
    !line.sing | mark.first
}
