// One instruction of a Copper list: read as memory stands, and done, over lent memory and a lent register file.
#![tactic(auto)]

mod permitted;
mod read;
pub mod types;

ghost use Rattle.std.specs.Prelude.{◌≡◌, ◌+◌, ◌<◌, ◌≤◌, length};
ghost use Rattle.word.specs.Pointer.{pointer_end};
ghost use Rattle.beam.specs.Beam.{frame_end};
ghost use Rattle.instruction.specs.Effect.{moment, skipped, instruction_effect, effect};
ghost use Rattle.instruction.specs.Inner.Blitted.{blitted};
ghost use Rattle.instruction.specs.Inner.Taken.{left};

use crate::types::{Instruction, Position, Refusal};

// Memory is a lent slice, here of at most 262,144 words: that has been tested before a list's first instruction.

// Where a MOVE that is done leads: four positions on, to the next instruction.
fn after_move(here: Position) -> Position
    requires { (here.beam < frame_end) × (here.word < pointer_end) }
    ensures { result ≡ record { beam = here.beam + 4; word = here.word + 2 } }
{
    Position {
        beam: here.beam + 4,
        word: here.word + 2,
    }
}

// Runs the blit of a size.
fn blitted(
    ram: &mut [u16],
    file: &mut [u16],
    size: u16,
    here: Position,
) -> Result<Position, Refusal>
    requires { (here.beam < frame_end) × (here.word < pointer_end) }
    ensures { left result here ram.new file.new
        ≡ blitted size (moment ram.old file.old here.beam here.word) }
{
    blit::blit_step(ram, file, size)?;
    Ok(after_move(here))
}

// Does a MOVE: a blit for the size register, else a write of the bits that the register keeps.
fn move_effect(
    ram: &mut [u16],
    file: &mut [u16],
    offset: u16,
    value: u16,
    here: Position,
) -> Result<Position, Refusal>
    requires { (here.beam < frame_end) × (here.word + 1 < length ram.old) × (length ram.old ≤ pointer_end) }
    ensures { left result here ram.new file.new
        ≡ instruction_effect (Instruction.Move offset value)
        (moment ram.old file.old here.beam here.word) }
{
    let place = file::place(offset);
    let may = crate::permitted::permitted(file, offset);
    let known = crate::permitted::modelled(offset, place);
    if !may {
        return Err(Refusal::Forbidden);
    }
    if !known {
        return Err(Refusal::NotModelled);
    }
    if offset == crate::permitted::SIZE_OFFSET {
        return blitted(ram, file, value, here);
    }
    word::memory::write(file, place, file::kept(place, value));
    Ok(after_move(here))
}

// The word after a SKIP: the instruction after a satisfied one is passed over.
fn skipped(first: u16, second: u16, here: Position) -> u32
    requires { here.word < pointer_end }
    ensures { result ≡ skipped first second here.beam here.word }
{
    if beam::satisfied(first, second, here.beam) {
        return here.word + 4;
    }
    here.word + 2
}

// Does an instruction that has been read. A refused one changes nothing.
// The kinds are closed and each bears values of its own: a match tells them apart.
fn instruction_effect(
    ram: &mut [u16],
    file: &mut [u16],
    instruction: Instruction,
    here: Position,
) -> Result<Position, Refusal>
    requires { (here.beam < frame_end) × (here.word + 1 < length ram.old) × (length ram.old ≤ pointer_end) }
    ensures { left result here ram.new file.new
        ≡ instruction_effect instruction (moment ram.old file.old here.beam here.word) }
{
    match instruction {
        Instruction::Move { offset, value } => move_effect(ram, file, offset, value, here),
        Instruction::Wait { first, second } => Ok(Position {
            beam: beam::waited(first, second, here.beam),
            word: here.word + 2,
        }),
        Instruction::Skip { first, second } => Ok(Position {
            beam: here.beam + 4,
            word: skipped(first, second, here),
        }),
    }
}

// Reads the instruction at a word, as memory stands, and does it.
pub fn effect(ram: &mut [u16], file: &mut [u16], here: Position) -> Result<Position, Refusal>
    requires { (here.beam < frame_end) × (length ram.old ≤ pointer_end) }
    ensures { left result here ram.new file.new
        ≡ effect (moment ram.old file.old here.beam here.word) }
{
    if ram.len() <= here.word as usize + 1 {
        return Err(Refusal::Outside);
    }
    let first = word::memory::read(ram, here.word);
    let second = word::memory::read(ram, here.word + 1);
    let instruction = crate::read::instruction(first, second);
    instruction_effect(ram, file, instruction, here)
}
