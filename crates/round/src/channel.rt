// A channel of an area blit, row by row; at once where its first and last row tell.
ghost use Rattle.std.specs.Prelude.{◌≡◌, true, false, ◌<◌};
ghost use Rattle.word.specs.Pointer.{pointer_end};
ghost use Rattle.round.specs.Between.{went_round};
ghost use Rattle.round.specs.Channel.{channel_moves, channel_round};
ghost use Rattle.round.specs.Inner.Onward.{onward};

use refusal::types::Channel;
use word::pointer::{DOWNWARD, POINTER_END};
use word::types::{Direction, Pointer};

// A row's steps are one move of so many words: that goes round where one of them does. Behind the last row's last word no
// move counts.
fn rows_round(channel: Channel) -> bool
    ensures { result
        ≡ went_round (channel_moves channel.direction channel.width channel.modulo channel.rows channel.pointer) }
{
    let mut here = channel.pointer;
    for row in 1..channel.rows {
        let steps = here.passed(channel.direction, channel.width);
        let gap = steps.to.passed(channel.direction, channel.modulo);
        if steps.round {
            return true;
        }
        if gap.round {
            return true;
        }
        here = gap.to;
    }
    let last = here.passed(channel.direction, channel.width - 1);
    last.round
}

// How far a pointer stands from the end of memory from which its moves lead away.
fn onward(direction: Direction, pointer: Pointer) -> u32
    requires { pointer.word < pointer_end }
    ensures { (result ≡ onward direction pointer) × (result < pointer_end) }
{
    match direction {
        Direction::Ascending => pointer.word,
        Direction::Descending => POINTER_END - 1 - pointer.word,
    }
}

// The first and the last row lie inside, with a word behind all but the last: no move between goes round. Each row starts a
// width and a gap after the one before; a gap below 0 may lead back.
fn clear(channel: Channel) -> bool
    ensures { result ≡ true
        → went_round (channel_moves channel.direction channel.width channel.modulo channel.rows channel.pointer) ≡ false }
{
    let width = channel.width;
    let from = onward(channel.direction, channel.pointer);
    let gap = channel.modulo % POINTER_END;
    if gap < DOWNWARD {
        let far = word::even::distance(channel.rows, width + gap);
        return from + far + width <= POINTER_END;
    }
    let back = POINTER_END - gap;
    if back < width {
        let far = word::even::distance(channel.rows, width - back);
        return from + far + width <= POINTER_END;
    }
    let far = word::even::distance(channel.rows, back - width);
    (far <= from) & (from + width < POINTER_END)
}

// What a quick look at a channel tells: an unused one doesn't count.
pub fn channel_clear(channel: Channel) -> bool
    ensures { result ≡ true
        → channel_round channel.direction channel.used channel.width channel.modulo channel.rows channel.pointer ≡ false }
{
    if !channel.used {
        return true;
    }
    clear(channel)
}

pub fn channel_round(channel: Channel) -> bool
    ensures { result
        ≡ channel_round channel.direction channel.used channel.width channel.modulo channel.rows channel.pointer }
{
    if !channel.used {
        return false;
    }
    rows_round(channel)
}
