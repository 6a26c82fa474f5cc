// The knowledge of the Blitter's 19 registers, by their places in the register file.
ghost use Rattle.std.specs.Prelude.{◌≡◌, set};
ghost use Rattle.knowledge.specs.Knowledge.{known_at, nothing, numbers};

use crate::types::{Knowledge, Known};

// At the start no register is known.
pub fn nothing() -> Knowledge
    ensures { result.registers ≡ nothing }
{
    Knowledge {
        registers: [None; 19],
    }
}

impl Knowledge {
    // What is known of the register at a place: nothing, where the place is no register's.
    pub fn at(&self, place: u32) -> Known
        ensures { result ≡ known_at self.now.registers place }
    {
        if place < 19 {
            return self.registers[place as usize];
        }
        None
    }

    // One register replaced: by its number where a write makes it known, by None where it is forgotten.
    // A place that is no register's changes nothing.
    pub fn put(&mut self, place: u32, known: Known)
        ensures { self.new.registers ≡ set self.old.registers place known }
    {
        if place < 19 {
            self.registers[place as usize] = known;
        }
    }

    // The file's first words with the known numbers, and 0 where one isn't known. The turns count: of
    // `registers.map(..)` the check doesn't prove what each word is.
    pub fn numbers(&self) -> [u16; 19]
        ensures { result ≡ numbers self.now.registers }
    {
        let mut words = [0u16; 19];
        for place in 0..19 {
            words[place] = self.registers[place].unwrap_or(0);
        }
        words
    }
}
