// Settled blits, and those that a data register or a mask that isn't known keeps.
use std::io;

pub fn all(rt: &impl Print) -> io::Result<()> {
    crate::print::folded(
        rt,
        b"function FF",
        16,
        &[
            0x0040u16, 0x01FF, 0x0042, 0x0000, 0x0054, 0x0000, 0x0056, 0x0010, 0x0066, 0x0000,
            0x0058, 0x0042,
        ],
    )?;
    crate::print::folded(
        rt,
        b"function F0, one mask known",
        16,
        &[
            0x0040u16, 0x01F0, 0x0042, 0x0000, 0x0044, 0xFFFF, 0x0054, 0x0000, 0x0056, 0x0010,
            0x0066, 0x0000, 0x0074, 0x1234, 0x0058, 0x0042,
        ],
    )?;
    crate::print::folded(
        rt,
        b"function F0, both masks known",
        16,
        &[
            0x0040u16, 0x01F0, 0x0042, 0x0000, 0x0044, 0xFFFF, 0x0046, 0x00FF, 0x0054, 0x0000,
            0x0056, 0x0010, 0x0066, 0x0000, 0x0074, 0x1234, 0x0058, 0x0042,
        ],
    )?;
    crate::print::folded(
        rt,
        b"two rows, modulo 0004",
        16,
        &[
            0x0040u16, 0x0100, 0x0042, 0x0000, 0x0054, 0x0000, 0x0056, 0x0010, 0x0066, 0x0004,
            0x0058, 0x0081,
        ],
    )?;
    crate::print::folded(
        rt,
        b"two rows descending, modulo 0004",
        16,
        &[
            0x0040u16, 0x0100, 0x0042, 0x0002, 0x0054, 0x0000, 0x0056, 0x0010, 0x0066, 0x0004,
            0x0058, 0x0081,
        ],
    )?;
    crate::print::folded(
        rt,
        b"raw bits in copied writes",
        16,
        &[
            0x0040u16, 0x0100, 0x0042, 0x0000, 0x0054, 0xFFF8, 0x0056, 0x0011, 0x0066, 0x0001,
            0x0058, 0x0041,
        ],
    )
}
