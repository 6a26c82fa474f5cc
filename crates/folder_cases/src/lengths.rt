// Lengths: of a settled blit of 64 words, of the job, of the output and of the folded job.
use std::io;

// "size 0040 (64 words) settled": the last five words are the pointer's and the flag's.
fn most_words(rt: &impl Print) -> io::Result<()> {
    let job = [
        0x0040u16, 0x0100, 0x0042, 0x0000, 0x0054, 0x0000, 0x0056, 0x0010, 0x0066, 0x0000, 0x0058,
        0x0040,
    ];
    let mut out = [0xEEEEu16; 208];
    crate::print::answer(rt, b"N 128, size 0040", folder::fold(128, &job, &mut out))?;
    crate::print::words(
        rt,
        b"  last store's value, pointer, flag, rest",
        &out[201..],
    )
}

// "job 4,096 taken, 4,097 refused"
fn job_lengths(rt: &impl Print) -> io::Result<()> {
    let mut out = [0xEEEEu16; 4098];
    let most = [0xC000u16; 4096];
    crate::print::answer(rt, b"job 4096", folder::fold(16, &most, &mut out))?;
    let over = [0xC000u16; 4097];
    crate::print::answer(rt, b"job 4097", folder::fold(16, &over, &mut out))?;
    crate::print::answer(rt, b"N 0, job 4097", folder::fold(0, &over, &mut out))
}

// P11's folding has 21 words.
fn out_lengths(rt: &impl Print) -> io::Result<()> {
    let job = [
        0x0040u16, 0x0100, 0x0042, 0x0000, 0x0054, 0x0000, 0x0056, 0x0010, 0x0066, 0x0000, 0x0058,
        0x0042,
    ];
    let mut equal = [0xEEEEu16; 21];
    crate::print::answer(
        rt,
        b"output of 21 words",
        folder::fold(16, &job, &mut equal),
    )?;
    crate::print::words(rt, b"  out", &equal)?;
    let mut short = [0xEEEEu16; 20];
    crate::print::answer(
        rt,
        b"output of 20 words",
        folder::fold(16, &job, &mut short),
    )?;
    crate::print::words(rt, b"  out", &short)?;
    let wrong = [0xC000u16, 0x8000, 0x0011, 0x0000];
    let mut none = [0xEEEEu16; 1];
    crate::print::answer(
        rt,
        b"odd store, output of 1 word",
        folder::fold(16, &wrong, &mut none),
    )?;
    crate::print::words(rt, b"  out", &none)
}

// The word at a place of a job that readies D, then blits 64 words over and over, then from `flags` on holds flags C000.
fn word(at: usize, flags: usize) -> u16 {
    let first = [
        0x0040u16, 0x0100, 0x0042, 0x0000, 0x0054, 0x0000, 0x0056, 0x0010, 0x0066, 0x0000,
    ];
    if at < 10 {
        first[at]
    } else {
        if at < flags {
            if at % 2 == 0 { 0x0058 } else { 0x0040 }
        } else {
            0xC000
        }
    }
}

fn lay(job: &mut [u16], flags: usize) {
    for at in 0..job.len() {
        job[at] = word(at, flags);
    }
}

// The job, folded into an output of 8,192 words that hold EEEE, and what stands about the 4,096th.
fn folded(rt: &impl Print, name: &[u8], job: &mut [u16], flags: usize) -> io::Result<()> {
    lay(job, flags);
    let mut out = [0xEEEEu16; 8192];
    crate::print::answer(rt, name, folder::fold(262144, job, &mut out))?;
    let about = [out[0], out[3949], out[3950], out[4095], out[4096]];
    crate::print::words(rt, b"  words 0, 3949, 3950, 4095, 4096", &about)
}

// Each blit is folded to 197 words: 20 of them are 3,950 words with the ten before them, and 146 flags make 4,096.
fn folded_lengths(rt: &impl Print) -> io::Result<()> {
    folded(rt, b"20 blits of 64 words", &mut [0u16; 50], 50)?;
    folded(rt, b"21 blits of 64 words", &mut [0u16; 52], 52)?;
    folded(rt, b"20 blits and 146 flags", &mut [0u16; 196], 50)?;
    folded(rt, b"20 blits and 147 flags", &mut [0u16; 197], 50)
}

pub fn all(rt: &impl Print) -> io::Result<()> {
    most_words(rt)?;
    job_lengths(rt)?;
    out_lengths(rt)?;
    folded_lengths(rt)
}
