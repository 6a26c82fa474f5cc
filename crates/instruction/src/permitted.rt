// The offsets that a MOVE may write.
ghost use Rattle.std.specs.Prelude.{◌≡◌};
ghost use Rattle.file.specs.File.{place};
ghost use Rattle.instruction.specs.Permitted.{danger, permitted, modelled};

// The size register's offset.
pub const SIZE_OFFSET: u16 = 0x058;

// The danger bit: bit 1 of COPCON.
fn danger(file: &[u16]) -> bool
    ensures { result ≡ danger file.now }
{
    word::bits::is_set(word::memory::read(file, file::COPCON), 1)
}

pub fn permitted(file: &[u16], offset: u16) -> bool
    ensures { result ≡ permitted file.now offset }
{
    if 0x080 <= offset {
        return true;
    }
    if offset < 0x040 {
        return false;
    }
    danger(file)
}

// An offset whose place in the register file has been found.
pub fn modelled(offset: u16, found: u32) -> bool
    requires { found ≡ place offset }
    ensures { result ≡ modelled offset }
{
    (offset == SIZE_OFFSET) | (found < file::FLAG)
}
