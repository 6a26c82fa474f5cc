// The manual's vectors, and blits with D over a source, run through the blit on memory and printed; the file stdout
// beside src/ holds what the manual says, and paper 02 of the order of fetches and stores.
#![tactic(auto)]

use std::io;

// A register file with masks of all ones and the pointers' low halves.
fn registers(con0: u16, con1: u16, a: u16, b: u16, c: u16, d: u16) -> [u16; file::WORDS] {
    let mut file = [0u16; file::WORDS];
    file[file::CONTROL_0 as usize] = con0;
    file[file::CONTROL_1 as usize] = con1;
    file[file::FIRST_MASK as usize] = 0xFFFF;
    file[file::LAST_MASK as usize] = 0xFFFF;
    file[file::POINTER_C as usize + 1] = c;
    file[file::POINTER_B as usize + 1] = b;
    file[file::POINTER_A as usize + 1] = a;
    file[file::POINTER_D as usize + 1] = d;
    file
}

// Does a blit; prints a refusal, which no vector expects, or the count of words stored and the zero flag.
fn run(
    rt: &impl Print,
    ram: &mut [u16],
    file: &mut [u16; file::WORDS],
    size: u16,
) -> io::Result<()> {
    match blit::blit(ram, file, size) {
        Ok(done) => {
            show_words::text(rt, b" stored")?;
            show_words::hex(rt, (done.stored % 65536) as u16)?;
        }
        Err(_) => {
            show_words::text(rt, b" refused")?;
        }
    }
    show_words::text(rt, b" zero")?;
    show_words::hex(rt, file[file::FLAG as usize])?;
    show_words::text(rt, b":")
}

// Table 6-1: the function's code with A, B and C of every setting, upward and downward.
fn logic(rt: &impl Print, code: u16) -> io::Result<()> {
    let mut ram = [0xCF35, 0xA9A6, 0x9B5C, 0];
    let mut file = registers(0x0F00 + code % 256, 0, 0, 2, 4, 6);
    show_words::text(rt, b"logic")?;
    show_words::hex(rt, code)?;
    run(rt, &mut ram, &mut file, 0x0041)?;
    show_words::words(rt, &ram[3..4])?;
    file = registers(0x0F00 + code % 256, 2, 0, 2, 4, 6);
    run(rt, &mut ram, &mut file, 0x0041)?;
    show_words::words(rt, &ram[3..4])?;
    show_words::line(rt)
}

fn table(rt: &impl Print) -> io::Result<()> {
    let codes = [
        0xF0, 0x0F, 0xCC, 0x33, 0xAA, 0x55, 0xA0, 0x50, 0x0A, 0x05, 0xFC, 0xCF, 0xFA, 0xAF, 0xEE,
        0xBB, 0xC0, 0x30, 0x0C, 0x03, 0x88, 0x44, 0x22, 0x11, 0xF3, 0x3F, 0xF5, 0x5F, 0xDD, 0x77,
        0xCA, 0x80, 0xDC, 0xC8,
    ];
    for code in codes {
        logic(rt, code)?;
    }
    Ok(())
}

// Figure 6-4: B's rows show through the mask that A's constant makes of the last word; C is all ones.
fn figure_memory() -> [u16; 18] {
    [
        0x0000, 0x0000, 0xFFFF, 0xFFFF, 0xAA55, 0xAA55, 0xFFFF, 0xFFFF, 0xFFFF, 0xFFFF, 0xFFFF,
        0xFFFF, 0, 0, 0, 0, 0, 0,
    ]
}

// By the masks of the first and the last word, and the low halves of the pointers of B, C and D.
fn figure(
    rt: &impl Print,
    name: &[u8],
    con1: u16,
    [first, last]: [u16; 2],
    [b, c, d]: [u16; 3],
) -> io::Result<()> {
    let mut ram = figure_memory();
    let mut file = registers(0x07CA, con1, 0, b, c, d);
    file[file::FIRST_MASK as usize] = first;
    file[file::LAST_MASK as usize] = last;
    file[file::SOURCE_A as usize] = 0xFFFF;
    show_words::text(rt, name)?;
    run(rt, &mut ram, &mut file, 0x00C2)?;
    show_words::words(rt, &ram[12..18])?;
    show_words::line(rt)
}

// Downward the last word of a row is fetched first, so its mask is the first word's.
fn figures(rt: &impl Print) -> io::Result<()> {
    figure(rt, b"figure 6-4 up  ", 0, [0xFFFF, 0xFE00], [0, 12, 24])?;
    figure(rt, b"figure 6-4 down", 2, [0xFE00, 0xFFFF], [10, 22, 34])
}

// The text to Figure 6-4: B shifted by 5, the mask made unshifted or shifted with it.
fn figure_shifted(rt: &impl Print, con0: u16, first: u16, last: u16) -> io::Result<()> {
    let mut ram = [
        0x1234, 0x5678, 0x9ABC, 0xDEF0, 0xFFFF, 0xFFFF, 0xFFFF, 0xFFFF, 0, 0, 0, 0,
    ];
    let mut file = registers(con0, 0x5000, 0, 0, 8, 16);
    file[file::FIRST_MASK as usize] = first;
    file[file::LAST_MASK as usize] = last;
    file[file::SOURCE_A as usize] = 0xFFFF;
    show_words::text(rt, b"figure 6-4 by 5")?;
    run(rt, &mut ram, &mut file, 0x0082)?;
    show_words::words(rt, &ram[8..12])?;
    show_words::line(rt)
}

// A shift by 4 of two rows of three words: what the first row pushes out comes into the second.
fn shift(rt: &impl Print, con0: u16, con1: u16, a: u16, d: u16) -> io::Result<()> {
    let mut ram = [
        0x1234, 0x5678, 0x9ABC, 0xDEF0, 0x1357, 0x2468, 0, 0, 0, 0, 0, 0,
    ];
    let mut file = registers(con0, con1, a, 0, 0, d);
    show_words::text(rt, b"shift")?;
    show_words::hex(rt, con0 / 4096)?;
    run(rt, &mut ram, &mut file, 0x0083)?;
    show_words::words(rt, &ram[6..12])?;
    show_words::line(rt)
}

// The fill of one word, and of a row of two, downward.
fn fill(rt: &impl Print, con1: u16) -> io::Result<()> {
    let mut ram = [0x2418, 0, 0x0010, 0x0100, 0, 0];
    let mut file = registers(0x09F0, con1, 0, 0, 0, 2);
    show_words::text(rt, b"fill")?;
    show_words::hex(rt, con1)?;
    run(rt, &mut ram, &mut file, 0x0041)?;
    show_words::words(rt, &ram[1..2])?;
    file = registers(0x09F0, con1, 6, 0, 0, 10);
    run(rt, &mut ram, &mut file, 0x0042)?;
    show_words::words(rt, &ram[4..6])?;
    show_words::line(rt)
}

// Rows of 40 bytes; a part 10 bytes wide from row 13, byte 12, so 532 bytes on, with a modulo of 30.
fn section_memory() -> [u16; 310] {
    let mut ram = [0u16; 310];
    ram[265..272].copy_from_slice(&[0x0D05, 0x0D06, 0x0D07, 0x0D08, 0x0D09, 0x0D0A, 0x0D0B]);
    ram[286..292].copy_from_slice(&[0x0E06, 0x0E07, 0x0E08, 0x0E09, 0x0E0A, 0x0E0B]);
    ram
}

fn section_up(rt: &impl Print) -> io::Result<()> {
    let mut ram = section_memory();
    let mut file = registers(0x09F0, 0, 532, 0, 0, 0);
    file[file::MODULO_A as usize] = 30;
    show_words::text(rt, b"section up  ")?;
    run(rt, &mut ram, &mut file, 0x0085)?;
    show_words::words(rt, &ram[..11])?;
    show_words::hex(rt, file[file::POINTER_A as usize + 1])?;
    show_words::hex(rt, file[file::POINTER_D as usize + 1])?;
    show_words::line(rt)
}

fn section_down(rt: &impl Print) -> io::Result<()> {
    let mut ram = section_memory();
    let mut file = registers(0x09F0, 2, 580, 0, 0, 18);
    file[file::MODULO_A as usize] = 30;
    show_words::text(rt, b"section down")?;
    run(rt, &mut ram, &mut file, 0x0085)?;
    show_words::words(rt, &ram[..11])?;
    show_words::words(
        rt,
        &file[file::POINTER_A as usize..file::POINTER_A as usize + 4],
    )?;
    show_words::line(rt)
}

// A shift by 100 bits is a destination 6 words on and a shift by 4.
fn hundred(rt: &impl Print) -> io::Result<()> {
    let mut ram = [0xABCD, 0, 0, 0, 0, 0, 0, 0, 0, 0];
    let mut file = registers(0x49F0, 0, 0, 0, 0, 12);
    show_words::text(rt, b"100 bits on ")?;
    run(rt, &mut ram, &mut file, 0x0042)?;
    show_words::words(rt, &ram[..9])?;
    show_words::line(rt)
}

// Words 1 to 8 with D over a source: a word is stored once the next word's sources are fetched, in the next row too.
fn overlap(
    rt: &impl Print,
    con0: u16,
    con1: u16,
    from: u16,
    to: u16,
    modulo: u16,
    size: u16,
) -> io::Result<()> {
    let mut ram = [1u16, 2, 3, 4, 5, 6, 7, 8];
    let mut file = registers(con0, con1, from, from, from, to);
    file[file::MODULO_A as usize] = modulo;
    show_words::text(rt, b"overlap")?;
    show_words::hex(rt, con0)?;
    run(rt, &mut ram, &mut file, size)?;
    show_words::words(rt, &ram[..8])?;
    show_words::text(rt, b" data")?;
    show_words::words(
        rt,
        &file[file::SOURCE_C as usize..file::SOURCE_C as usize + 3],
    )?;
    show_words::line(rt)
}

fn main(rt: HostRuntime) -> io::Result<()> {
    table(&rt)?;
    figures(&rt)?;
    figure_shifted(&rt, 0x07CA, 0x07FF, 0xFFF0)?;
    figure_shifted(&rt, 0x57CA, 0xFFFF, 0xFE00)?;
    shift(&rt, 0x49F0, 0, 0, 12)?;
    shift(&rt, 0x49F0, 2, 10, 22)?;
    shift(&rt, 0x09F0, 0, 0, 12)?;
    shift(&rt, 0x09F0, 2, 10, 22)?;
    fill(&rt, 0x000A)?;
    fill(&rt, 0x0012)?;
    fill(&rt, 0x000E)?;
    fill(&rt, 0x0016)?;
    section_up(&rt)?;
    section_down(&rt)?;
    hundred(&rt)?;
    overlap(&rt, 0x09F0, 0, 0, 2, 0, 0x0043)?;
    overlap(&rt, 0x09F0, 0, 0, 2, 0, 0x0045)?;
    overlap(&rt, 0x09F0, 0, 0, 4, 0, 0x0046)?;
    overlap(&rt, 0x09F0, 2, 6, 4, 0, 0x0043)?;
    overlap(&rt, 0x09F0, 0, 0, 2, 0, 0x00C1)?;
    overlap(&rt, 0x05CC, 0, 0, 2, 0, 0x0043)?;
    overlap(&rt, 0x03AA, 0, 0, 2, 0, 0x0043)?;
    overlap(&rt, 0x09F0, 0x000A, 6, 4, 0, 0x0043)?;
    overlap(&rt, 0x09F0, 0, 0, 6, 4, 0x0082)
}
