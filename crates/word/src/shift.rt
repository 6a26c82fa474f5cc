// The shift of a word with the earlier one, as a pair of 32 bits.
ghost use Rattle.std.specs.Prelude.{◌≡◌, ◌+◌, ◌*◌, ◌<◌};
ghost use Rattle.word.specs.Shift.{shifted};

use crate::types::Direction;

fn pair(left: u16, right: u16) -> u32
    ensures { result ≡ left * 65536 + right }
{
    (left as u32) * 65536 + (right as u32)
}

pub fn shifted(direction: Direction, n: u32, earlier: u16, this: u16) -> u16
    requires { n < 16 }
    ensures { result ≡ shifted direction n earlier this }
{
    match direction {
        Direction::Ascending => ((pair(earlier, this) >> n) % 65536) as u16,
        Direction::Descending => ((pair(this, earlier) << n) / 65536) as u16,
    }
}
