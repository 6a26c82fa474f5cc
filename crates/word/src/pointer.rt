// Pointers: made of two registers, moved by one and by a modulo, each modulo 262,144.
ghost use Rattle.std.specs.Prelude.{◌≡◌, ◌<◌, ◌≤◌};
ghost use Rattle.word.specs.Pointer.{pointer_end, pointer, high, low, half, next_row};
ghost use Rattle.word.specs.Round.{plus_move, minus_move, word_move, modulo_move};
ghost use Rattle.word.specs.Inner.On.{moved_on};

use crate::types::{Direction, Move, Pointer};

// The words that a pointer reaches.
pub const POINTER_END: u32 = 262144;

// A stride of so many words or more leads down.
pub const DOWNWARD: u32 = POINTER_END / 2;

// The same two as indices: a constant has one type, and a cast at each use would say less.
pub const INDEX_END: usize = POINTER_END as usize;

pub const INDEX_DOWNWARD: usize = DOWNWARD as usize;

// The pointer of two registers.
pub fn pointer(high: u16, low: u16) -> Pointer
    ensures { result ≡ pointer high low }
{
    Pointer {
        word: ((high as u32) * 65536 + (low as u32)) / 2 % POINTER_END,
    }
}

// Half of a modulo, to be added modulo 262,144.
pub fn half(modulo: u16) -> u32
    ensures { result ≡ half modulo }
{
    let bytes = modulo as u32;
    bytes / 2 % 32768 + bytes / 32768 % 2 * (POINTER_END - 32768)
}

impl Pointer {
    // The register halves of the pointer.
    pub fn high(self) -> u16
        ensures { result ≡ high self }
    {
        (self.word / 32768 % 8) as u16
    }

    pub fn low(self) -> u16
        ensures { result ≡ low self }
    {
        (self.word % 32768 * 2) as u16
    }

    // So many words on, which lead up or down: where they come to is above 262,143, or below 0, and it says so.
    fn on(self, words: u32, up: bool) -> Move
        requires { words ≤ pointer_end }
        ensures { result ≡ moved_on words up self }
    {
        let word = (self.word % POINTER_END + words) % POINTER_END;
        let to = Pointer { word };
        Move {
            to,
            round: (POINTER_END - words <= self.word) == up,
        }
    }

    // So many words added, or taken away. From 131,072 on they stand for a number below 0.
    pub fn plus(self, words: u32) -> Move
        ensures { result ≡ plus_move words self }
    {
        let by = words % POINTER_END;
        self.on(by, by < DOWNWARD)
    }

    pub fn minus(self, words: u32) -> Move
        ensures { result ≡ minus_move words self }
    {
        let by = words % POINTER_END;
        self.on(POINTER_END - by, DOWNWARD <= by)
    }

    // The move after a word.
    pub fn moved(self, direction: Direction) -> Move
        ensures { result ≡ word_move direction self }
    {
        self.passed(direction, 1)
    }

    // The move by a row's modulo, of which words is the half.
    pub fn passed(self, direction: Direction, words: u32) -> Move
        ensures { result ≡ modulo_move direction words self }
    {
        match direction {
            Direction::Ascending => self.plus(words),
            Direction::Descending => self.minus(words),
        }
    }

    // The pointer after a row of so many words, and the modulo.
    pub fn next_row(self, direction: Direction, width: u32, modulo: u32) -> Pointer
        requires { (self.word < pointer_end) × (width ≤ 64) }
        ensures { (result ≡ next_row direction width modulo self) × (result.word < pointer_end) }
    {
        let row = self.passed(direction, width);
        let end = row.to;
        let gap = end.passed(direction, modulo);
        gap.to
    }
}
