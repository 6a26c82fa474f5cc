// The manual's programs for line mode, SimpleLine and RotateBits, run through the blit: what SimpleLine writes into the
// registers for one line in each octant, and what all of them together leave in a plane of 32 by 32 pixels; then the words
// of RotateBits. The file stdout beside src/ holds what the manual says.
#![tactic(auto)]

use std::io;

// The bytes of a row of the plane.
const ROW_BYTES: u16 = 4;

// The word where a pixel of the plane stands, counted in bytes: y rows on, and two bytes for each 16 pixels.
fn pixel_pointer(x: u16, y: u16) -> u16 {
    y % 32 * ROW_BYTES + x % 32 / 16 * 2
}

// SUD, SUL and AUL of the octant, in bits 4-2. SimpleLine numbers the octants 1 to 8 from right and down on, the way of a
// clock's hand.
fn octant(leftward: bool, upward: bool, steep: bool) -> u16 {
    match (leftward, upward, steep) {
        (true, true, true) => 0x0C,
        (true, true, false) => 0x1C,
        (true, false, true) => 0x08,
        (true, false, false) => 0x14,
        (false, true, true) => 0x04,
        (false, true, false) => 0x18,
        (false, false, true) => 0x00,
        (false, false, false) => 0x10,
    }
}

// A register's word of a number that may be less than nought: so much, less so much.
fn less(number: u16, by: u16) -> u16 {
    number.wrapping_sub(by)
}

// The registers as SimpleLine sets them up for a line of which the way along the longer side and the way along the shorter
// one are known: A's pointer 4Y - 2X, and the sign flag if that is negative; B's modulo 4Y; A's modulo 4Y - 4X; the shift
// x1's place in its word; use A, C and D, function A + C.
fn set_up(x1: u16, y1: u16, along: u16, across: u16, octant: u16) -> [u16; file::WORDS] {
    let mut file = [0u16; file::WORDS];
    let long = along % 1024;
    let short = across % 1024;
    let start = less(4 * short, 2 * long);
    let mut con1 = octant % 32 + 1;
    if 4 * short < 2 * long {
        con1 = con1 + 64;
    }
    let pointer = pixel_pointer(x1, y1);
    file[file::CONTROL_0 as usize] = x1 % 16 * 4096 + 0x0BFA;
    file[file::CONTROL_1 as usize] = con1;
    file[file::FIRST_MASK as usize] = 0xFFFF;
    file[file::LAST_MASK as usize] = 0xFFFF;
    file[file::POINTER_A as usize] = start / 32768 * 7;
    file[file::POINTER_A as usize + 1] = start;
    file[file::POINTER_C as usize + 1] = pointer;
    file[file::POINTER_D as usize + 1] = pointer;
    file[file::MODULO_A as usize] = less(4 * short, 4 * long);
    file[file::MODULO_B as usize] = 4 * short;
    file[file::MODULO_C as usize] = ROW_BYTES;
    file[file::MODULO_D as usize] = ROW_BYTES;
    file[file::SOURCE_A as usize] = 0x8000;
    file
}

// Prints what the line's set-up is: the two controls, A's pointer, A's and B's modulos, C's pointer, the size.
fn print_set_up(rt: &impl Print, file: &[u16; file::WORDS], size: u16) -> io::Result<()> {
    show_words::text(rt, b"line")?;
    show_words::words(
        rt,
        &file[file::CONTROL_0 as usize..file::CONTROL_0 as usize + 2],
    )?;
    show_words::words(
        rt,
        &file[file::POINTER_A as usize..file::POINTER_A as usize + 2],
    )?;
    show_words::hex(rt, file[file::MODULO_A as usize])?;
    show_words::hex(rt, file[file::MODULO_B as usize])?;
    show_words::words(
        rt,
        &file[file::POINTER_C as usize..file::POINTER_C as usize + 2],
    )?;
    show_words::hex(rt, size)
}

// Does the blit; prints a refusal, which nothing here expects, or the count of words stored, where A's and C's pointers
// stand, and the zero flag.
fn run(
    rt: &impl Print,
    ram: &mut [u16],
    file: &mut [u16; file::WORDS],
    size: u16,
) -> io::Result<()> {
    match blit::blit(ram, file, size) {
        Ok(done) => {
            show_words::text(rt, b" stored")?;
            show_words::hex(rt, (done.stored % 65536) as u16)?;
        }
        Err(_) => {
            show_words::text(rt, b" refused")?;
        }
    }
    show_words::text(rt, b" left")?;
    show_words::words(
        rt,
        &file[file::POINTER_A as usize..file::POINTER_A as usize + 2],
    )?;
    show_words::words(
        rt,
        &file[file::POINTER_C as usize..file::POINTER_C as usize + 2],
    )?;
    show_words::words(
        rt,
        &file[file::POINTER_D as usize..file::POINTER_D as usize + 2],
    )?;
    show_words::text(rt, b" zero")?;
    show_words::hex(rt, file[file::FLAG as usize])
}

// SimpleLine.
fn simple_line(
    rt: &impl Print,
    ram: &mut [u16],
    x1: u16,
    y1: u16,
    x2: u16,
    y2: u16,
) -> io::Result<()> {
    let dx = x1.abs_diff(x2) % 1024;
    let dy = y1.abs_diff(y2) % 1024;
    let steep = dx < dy;
    let code = octant(x2 < x1, y2 < y1, steep);
    let along = dx.max(dy);
    let across = dx.min(dy);
    let mut file = set_up(x1, y1, along, across, code);
    let size = (along % 1023) * 64 + 0x42;
    print_set_up(rt, &file, size)?;
    run(rt, ram, &mut file, size)?;
    show_words::line(rt)
}

// One line in each octant, from the middle of the plane, by the manual's numbers 1 to 8.
fn star(rt: &impl Print) -> io::Result<()> {
    let mut ram = [0u16; 64];
    simple_line(rt, &mut ram, 16, 16, 30, 22)?;
    simple_line(rt, &mut ram, 16, 16, 22, 30)?;
    simple_line(rt, &mut ram, 15, 16, 9, 30)?;
    simple_line(rt, &mut ram, 15, 16, 1, 22)?;
    simple_line(rt, &mut ram, 15, 15, 1, 9)?;
    simple_line(rt, &mut ram, 15, 15, 9, 1)?;
    simple_line(rt, &mut ram, 16, 15, 22, 1)?;
    simple_line(rt, &mut ram, 16, 15, 30, 9)?;
    show_words::picture(rt, &ram)
}

// The far ends of the plane, level, upright and aslant.
fn frame(rt: &impl Print) -> io::Result<()> {
    let mut ram = [0u16; 64];
    simple_line(rt, &mut ram, 0, 0, 31, 0)?;
    simple_line(rt, &mut ram, 31, 0, 31, 31)?;
    simple_line(rt, &mut ram, 31, 31, 0, 31)?;
    simple_line(rt, &mut ram, 0, 31, 0, 0)?;
    simple_line(rt, &mut ram, 0, 0, 31, 31)?;
    simple_line(rt, &mut ram, 16, 16, 16, 16)?;
    show_words::picture(rt, &ram)
}

// RotateBits: bit k from the left of sixteen words is set as the bits of one raster word say, the texture of a line that
// goes down one word a dot.
fn rotate_bits(rt: &impl Print, raster: u16, k: u16, ram: &mut [u16; 16]) -> io::Result<()> {
    let mut file = [0u16; file::WORDS];
    file[file::CONTROL_0 as usize] = k % 16 * 4096 + 0x0BCA;
    file[file::CONTROL_1 as usize] = 0xF049;
    file[file::FIRST_MASK as usize] = 0xFFFF;
    file[file::LAST_MASK as usize] = 0xFFFF;
    file[file::POINTER_A as usize] = 7;
    file[file::POINTER_A as usize + 1] = 0xFFE2;
    file[file::MODULO_A as usize] = 0xFFC4;
    file[file::MODULO_C as usize] = 2;
    file[file::MODULO_D as usize] = 2;
    file[file::SOURCE_A as usize] = 0x8000;
    file[file::SOURCE_B as usize] = raster;
    show_words::text(rt, b"rotate")?;
    show_words::hex(rt, raster)?;
    run(rt, ram, &mut file, 0x0402)?;
    show_words::text(rt, b":")?;
    show_words::words(rt, ram)?;
    show_words::line(rt)
}

fn main(rt: HostRuntime) -> io::Result<()> {
    star(&rt)?;
    frame(&rt)?;
    let mut zeros = [0u16; 16];
    rotate_bits(&rt, 0xA5C3, 3, &mut zeros)?;
    let mut ones = [0xFFFFu16; 16];
    rotate_bits(&rt, 0xA5C3, 3, &mut ones)
}
