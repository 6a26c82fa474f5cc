// The instruction that two words are. The two kinds with an odd first word stand under one test, so that the compiler
// keeps each way a branch of its own and doesn't ask for the kind again.
ghost use Rattle.std.specs.Prelude.{◌≡◌};
ghost use Rattle.instruction.specs.Instruction.{instruction};

use crate::types::Instruction;

pub fn instruction(first: u16, second: u16) -> Instruction
    ensures { result ≡ instruction first second }
{
    if first % 2 == 1 {
        if second % 2 == 1 {
            return Instruction::Skip { first, second };
        }
        return Instruction::Wait { first, second };
    }
    Instruction::Move {
        offset: first & 0x01FE,
        value: second,
    }
}
