// Blits that go round: kept for that alone, with a yes; kept for another reason too, or settled, with none.
use std::io;

pub fn all(rt: &impl Print) -> io::Result<()> {
    crate::print::folded_round(
        rt,
        b"D round and back",
        16,
        &[
            0x0040u16, 0x0100, 0x0042, 0x0002, 0x0054, 0x0000, 0x0056, 0x0000, 0x0066, 0xFFFC,
            0x0058, 0x0081,
        ],
    )?;
    crate::print::folded_round(
        rt,
        b"D round after its last word",
        16,
        &[
            0x0040u16, 0x0100, 0x0042, 0x0002, 0x0054, 0x0000, 0x0056, 0x0000, 0x0066, 0xFFFC,
            0x0058, 0x0041,
        ],
    )?;
    crate::print::folded_round(
        rt,
        b"row over the top",
        262144,
        &[
            0x0040u16, 0x0100, 0x0042, 0x0000, 0x0054, 0x0007, 0x0056, 0xFFFC, 0x0066, 0x0000,
            0x0058, 0x0043,
        ],
    )?;
    crate::print::folded_round(
        rt,
        b"row to the top",
        262144,
        &[
            0x0040u16, 0x0100, 0x0042, 0x0000, 0x0054, 0x0007, 0x0056, 0xFFFC, 0x0066, 0x0000,
            0x0058, 0x0042,
        ],
    )?;
    crate::print::folded_round(
        rt,
        b"modulo below nought",
        262144,
        &[
            0x0040u16, 0x0100, 0x0042, 0x0000, 0x0054, 0x0000, 0x0056, 0x0004, 0x0066, 0xFFF8,
            0x0058, 0x0081,
        ],
    )?;
    crate::print::folded_round(
        rt,
        b"modulo to nought",
        262144,
        &[
            0x0040u16, 0x0100, 0x0042, 0x0000, 0x0054, 0x0000, 0x0056, 0x0004, 0x0066, 0xFFFA,
            0x0058, 0x0081,
        ],
    )?;
    crate::print::folded_round(
        rt,
        b"round, modulo not known",
        16,
        &[
            0x0040u16, 0x0100, 0x0042, 0x0002, 0x0054, 0x0000, 0x0056, 0x0000, 0x0058, 0x0081,
        ],
    )?;
    crate::print::folded_round(
        rt,
        b"round, and out of memory",
        16,
        &[
            0x0040u16, 0x0100, 0x0042, 0x0002, 0x0054, 0x0000, 0x0056, 0x0000, 0x0066, 0x0000,
            0x0058, 0x0042,
        ],
    )?;
    crate::print::folded_round(
        rt,
        b"round, then a settled blit",
        16,
        &[
            0x0040u16, 0x0100, 0x0042, 0x0002, 0x0054, 0x0000, 0x0056, 0x0000, 0x0066, 0xFFFC,
            0x0058, 0x0081, 0x0054, 0x0000, 0x0056, 0x0010, 0x0058, 0x0041,
        ],
    )?;
    crate::print::folded_round(
        rt,
        b"round, then no step",
        16,
        &[
            0x0040u16, 0x0100, 0x0042, 0x0002, 0x0054, 0x0000, 0x0056, 0x0000, 0x0066, 0xFFFC,
            0x0058, 0x0081, 0x0001,
        ],
    )?;
    too_long(rt)
}

// "when it is done": a folding that is too long gives none.
fn too_long(rt: &impl Print) -> io::Result<()> {
    let job = [
        0x0040u16, 0x0100, 0x0042, 0x0002, 0x0054, 0x0000, 0x0056, 0x0000, 0x0066, 0xFFFC, 0x0058,
        0x0081,
    ];
    let mut short = [0xEEEEu16; 11];
    let folding = folder::fold(16, &job, &mut short);
    crate::print::answer(rt, b"round, output of 11 words", folding)?;
    crate::print::round(rt, folding)?;
    crate::print::words(rt, b"  out", &short)
}
