// The manual's Figure 6-4, a cookie cut: B shows where the mask lets it, C elsewhere. Memory before and after, in dots
// and hashes.
#![tactic(auto)]

use std::io;

// B, C and D, each three rows of two words.
fn pictures(rt: &impl Print, ram: &[u16; 18]) -> io::Result<()> {
    show_words::text(rt, b"B\n")?;
    show_words::picture(rt, &ram[..6])?;
    show_words::text(rt, b"C\n")?;
    show_words::picture(rt, &ram[6..12])?;
    show_words::text(rt, b"D\n")?;
    show_words::picture(rt, &ram[12..])
}

fn main(rt: HostRuntime) -> io::Result<()> {
    let mut ram = [
        0x0000, 0x0000, 0xFFFF, 0xFFFF, 0xAA55, 0xAA55, 0xFFFF, 0xFFFF, 0xFFFF, 0xFFFF, 0xFFFF,
        0xFFFF, 0, 0, 0, 0, 0, 0,
    ];
    let mut file = [0u16; file::WORDS];
    // Use B, C and D, function CA; the constant A, masked to FE00 in a row's last word, chooses between B and C.
    file[file::CONTROL_0 as usize] = 0x07CA;
    file[file::FIRST_MASK as usize] = 0xFFFF;
    file[file::LAST_MASK as usize] = 0xFE00;
    file[file::SOURCE_A as usize] = 0xFFFF;
    // The pointers of C and D; B's is 0.
    file[file::POINTER_C as usize + 1] = 12;
    file[file::POINTER_D as usize + 1] = 24;
    show_words::text(&rt, b"Before\n")?;
    pictures(&rt, &ram)?;
    // Three rows of two words.
    match blit::blit(&mut ram, &mut file, 0x00C2) {
        Ok(done) => {
            show_words::text(&rt, b"After, words stored")?;
            show_words::hex(&rt, (done.stored % 65536) as u16)?;
            show_words::line(&rt)?;
        }
        Err(_) => {
            show_words::text(&rt, b"Refused\n")?;
        }
    }
    pictures(&rt, &ram)
}
