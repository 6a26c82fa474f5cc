// Text, and words as hex digits or as dots and hashes, written to standard output, for programs that are run and compared.
#![tactic(auto)]

use std::io;

pub fn text(rt: &impl Print, bytes: &[u8]) -> io::Result<()> {
    rt.write_all(bytes)
}

pub fn line(rt: &impl Print) -> io::Result<()> {
    rt.write_all(b"\n")
}

// The hex digit of a number's last four bits.
fn digit(n: u16) -> u8 {
    b"0123456789ABCDEF"[(n % 16) as usize]
}

// A word as a blank and four hex digits, in one write. By digits: by a format a word costs ten times the instructions.
pub fn hex(rt: &impl Print, word: u16) -> io::Result<()> {
    rt.write_all(&[
        b' ',
        digit(word / 4096),
        digit(word / 256),
        digit(word / 16),
        digit(word),
    ])
}

pub fn words(rt: &impl Print, run: &[u16]) -> io::Result<()> {
    for word in run {
        hex(rt, *word)?;
    }
    Ok(())
}

// A word as sixteen dots and hashes, bit 15 first. By hand: the library prints the bits of a word as 0 and 1.
pub fn bits(rt: &impl Print, word: u16) -> io::Result<()> {
    let mut text = [b'.'; 16];
    let mut rest = word;
    for byte in text.iter_mut().rev() {
        if rest % 2 == 1 {
            *byte = b'#';
        }
        rest /= 2;
    }
    rt.write_all(&text)
}

// Rows of two words, in dots and hashes.
pub fn picture(rt: &impl Print, run: &[u16]) -> io::Result<()> {
    for row in run.chunks(2) {
        for word in row {
            bits(rt, *word)?;
        }
        line(rt)?;
    }
    Ok(())
}
