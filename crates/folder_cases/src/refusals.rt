// Steps that are refused leave the output as it was.
use std::io;

pub fn all(rt: &impl Print) -> io::Result<()> {
    crate::print::folded(rt, b"0002 at place 2", 16, &[0x0040u16, 0x0100, 0x0002])?;
    crate::print::folded(rt, b"store cut off", 16, &[0xC000u16, 0x8000, 0x0010])?;
    crate::print::folded(
        rt,
        b"odd store after a settled blit",
        16,
        &[
            0x0040u16, 0x0100, 0x0042, 0x0000, 0x0054, 0x0000, 0x0056, 0x0010, 0x0066, 0x0000,
            0x0058, 0x0041, 0x8000, 0x0011, 0x0000,
        ],
    )
}
