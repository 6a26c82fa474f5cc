// What a line leaves in the register file.
ghost use Rattle.std.specs.Prelude.{◌≡◌};
ghost use Rattle.line.specs.Leave.{leave};

use line::types::Drawn;

pub fn leave(file: &mut [u16], end: Drawn)
    ensures { file.new ≡ leave end file.old }
{
    let dot = end.dot;
    let at = dot.spot.at;
    word::memory::write(file, file::POINTER_A + 1, dot.accumulator);
    file::put_pointer(file, file::POINTER_C, at);
    file::put_pointer(file, file::POINTER_D, at);
    file::put_flag(file, end.allzero);
}
