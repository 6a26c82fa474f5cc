// Runs jobs through the runner and prints what they give and leave: paper 01's "Run and compared" cases, each number of
// the table that a run can give, colours, which channel is told of a blit that leaves memory, a job of several blits with
// stores and flags between, and pointers that go round. What it must print is written out beside it, from the papers.
#![tactic(auto)]

ghost use Rattle.std.specs.Prelude.{◌≤◌};

use runner::types::Answer;
use std::io;

// A case's name, and the answer's number, place and count. Handle, name and answer, or job, stay apart: each call below
// reads as its case.
fn show(rt: &impl Print, name: &[u8], answer: Answer) -> io::Result<()> {
    let told = runner::answer::told(answer);
    rt.write_all(name)?;
    rt.write_all(b": number ")?;
    rt.print(told.number as u64)?;
    rt.write_all(b" place ")?;
    rt.print(told.place as u64)?;
    rt.write_all(b" stored ")?;
    rt.print(told.stored as u64)?;
    rt.write_all(b"\n")
}

// Lower case, as the stdout beside src/ has it; `show_words` prints capitals.
fn show_word(rt: &impl Print, word: u16) -> io::Result<()> {
    rt.write_all(b" ")?;
    print!(rt; "{word:04x}")
}

// Words in hex, on a line of their own.
fn show_words(rt: &impl Print, name: &[u8], words: &[u16]) -> io::Result<()> {
    rt.write_all(name)?;
    for word in words {
        show_word(rt, *word)?;
    }
    rt.write_all(b"\n")
}

// A register file: the Blitter's registers, COPCON, the colours in two lines, and the zero flag.
fn show_file(rt: &impl Print, file: &[u16; file::WORDS]) -> io::Result<()> {
    const COPCON: usize = file::COPCON as usize;
    const COLOURS: usize = file::COLOUR_0 as usize;
    const FLAG: usize = file::FLAG as usize;
    show_words(rt, b"  blitter", &file[..COPCON])?;
    show_words(rt, b"  copcon", &file[COPCON..COLOURS])?;
    show_words(rt, b"  colours", &file[COLOURS..COLOURS + 16])?;
    show_words(rt, b"         ", &file[COLOURS + 16..FLAG])?;
    show_words(rt, b"  zero", &file[FLAG..])
}

// A job run on so many words of memory and a register file that are all zero.
fn run_on_zeros<const N: usize>(job: &[u16]) -> Answer
    requires { N ≤ 262144 }
{
    let mut ram = [0u16; N];
    let mut file = [0u16; file::WORDS];
    runner::run(&mut ram, &mut file, job)
}

// A job on 16 words.
fn on_zeros(rt: &impl Print, name: &[u8], job: &[u16]) -> io::Result<()> {
    show(rt, name, run_on_zeros::<16>(job))
}

// The same with what is left printed.
fn on_zeros_whole(rt: &impl Print, name: &[u8], job: &[u16]) -> io::Result<()> {
    let mut ram = [0u16; 16];
    let mut file = [0u16; file::WORDS];
    show(rt, name, runner::run(&mut ram, &mut file, job))?;
    show_words(rt, b"  memory", &ram)?;
    show_file(rt, &file)
}

// "N 262,144 taken, 262,145 refused", with a store to word 262,143.
fn memory_sizes(rt: &impl Print) -> io::Result<()> {
    let job = [0x8007u16, 0xFFFE, 0x1234];
    let mut file = [0u16; file::WORDS];
    let mut none = [0u16; 0];
    show(rt, b"memory 0", runner::run(&mut none, &mut file, &job))?;
    let mut most = [0u16; 262144];
    show(
        rt,
        b"memory 262144",
        runner::run(&mut most, &mut file, &job),
    )?;
    let mut over = [0u16; 262145];
    show(
        rt,
        b"memory 262145",
        runner::run(&mut over, &mut file, &job),
    )
}

// A register file on which a job of one flag step is run.
fn on_file(rt: &impl Print, name: &[u8], file: &mut [u16]) -> io::Result<()> {
    let mut ram = [0u16; 16];
    show(rt, name, runner::run(&mut ram, file, &[0xC001]))
}

// The same on a file of zeros with one word replaced.
fn with_word(rt: &impl Print, name: &[u8], place: u32, word: u16) -> io::Result<()> {
    let mut file = [0u16; file::WORDS];
    word::memory::write(&mut file, place, word);
    on_file(rt, name, &mut file)
}

// "2 reads 53 for 20"; then the most that a register keeps and one bit more, at a pointer, COPCON, the first and the last
// colour and the flag.
fn files(rt: &impl Print) -> io::Result<()> {
    on_file(rt, b"file of 20 words", &mut [0; 20])?;
    on_file(rt, b"file of 52 words", &mut [0; 52])?;
    on_file(rt, b"file of 54 words", &mut [0; 54])?;
    with_word(rt, b"file with DPTH 0007", file::POINTER_D, 0x0007)?;
    with_word(rt, b"file with DPTH 0008", file::POINTER_D, 0x0008)?;
    with_word(rt, b"file with COPCON 0002", file::COPCON, 0x0002)?;
    with_word(rt, b"file with COPCON 0001", file::COPCON, 0x0001)?;
    with_word(rt, b"file with COPCON 0004", file::COPCON, 0x0004)?;
    with_word(rt, b"file with COLOR00 0FFF", file::COLOUR_0, 0x0FFF)?;
    with_word(rt, b"file with COLOR00 1000", file::COLOUR_0, 0x1000)?;
    with_word(rt, b"file with COLOR31 0FFF", file::COLOUR_0 + 31, 0x0FFF)?;
    with_word(rt, b"file with COLOR31 8000", file::COLOUR_0 + 31, 0x8000)?;
    with_word(rt, b"file with flag 1", file::FLAG, 1)?;
    with_word(rt, b"file with flag 2", file::FLAG, 2)
}

// "job 4,096 taken, 4,097 refused", and the order 1, 2, 3.
fn job_lengths(rt: &impl Print) -> io::Result<()> {
    let most = [0xC001u16; 4096];
    on_zeros(rt, b"job 4096", &most)?;
    let over = [0xC001u16; 4097];
    on_zeros(rt, b"job 4097", &over)?;
    let mut none = [0u16; 0];
    let mut short = [0u16; 20];
    show(
        rt,
        b"memory 0, file of 20, job 4097",
        runner::run(&mut none, &mut short, &over),
    )?;
    let mut ram = [0u16; 16];
    show(
        rt,
        b"file of 20, job 4097",
        runner::run(&mut ram, &mut short, &over),
    )
}

// Numbers 4 to 10 and 16 to 19, each after steps that are done.
fn refused_steps(rt: &impl Print) -> io::Result<()> {
    on_zeros(rt, b"begins no step", &[0xC001, 0x0041, 0x0000])?;
    on_zeros(rt, b"cut off, and odd", &[0xC001, 0x8000, 0x0001])?;
    on_zeros(rt, b"odd, and at N", &[0xC001, 0x8000, 0x0021, 0x0000])?;
    on_zeros(rt, b"line, both fills", &[0x0042, 0x0019, 0x0058, 0x0041])?;
    on_zeros(
        rt,
        b"line, D apart",
        &[
            0x0040, 0x0BCA, 0x0042, 0x0001, 0x0056, 0x0002, 0x0058, 0x0042,
        ],
    )?;
    on_zeros(
        rt,
        b"line at N",
        &[
            0x0040, 0x0BCA, 0x0042, 0x0001, 0x004A, 0x0020, 0x0056, 0x0020, 0x0058, 0x0042,
        ],
    )?;
    on_zeros(
        rt,
        b"line of 1024 dots",
        &[
            0x0040, 0x0BCA, 0x0042, 0x0041, 0x0052, 0x8000, 0x0058, 0x0002,
        ],
    )?;
    on_zeros(rt, b"both fills", &[0x0042, 0x0018, 0x0058, 0x0041])?;
    on_zeros(rt, b"fill upward", &[0x0042, 0x0008, 0x0058, 0x0041])?;
    on_zeros(
        rt,
        b"blit touches N",
        &[0x0040, 0x0100, 0x0056, 0x001E, 0x0058, 0x0042],
    )?;
    on_zeros(
        rt,
        b"blit to N - 1",
        &[0x0040, 0x0100, 0x0056, 0x001E, 0x0058, 0x0041],
    )?;
    on_zeros_whole(
        rt,
        b"store at N",
        &[
            0x8000, 0x001E, 0x1111, 0x0040, 0x2222, 0xC001, 0x8000, 0x0020, 0x3333, 0xC000,
        ],
    )
}

// Colours from both ends of the run and from its middle; COPCON and colours with all bits set; before 02E, between the data
// registers and 180, at an odd offset and past 1BE no step begins.
fn colours(rt: &impl Print) -> io::Result<()> {
    on_zeros_whole(
        rt,
        b"colours 0, 1, 15, 16, 21, 31",
        &[
            0x0180, 0x0F00, 0x0182, 0x0FFF, 0x019E, 0x0123, 0x01A0, 0x0456, 0x01AA, 0x0789, 0x01BE,
            0x0ABC,
        ],
    )?;
    on_zeros_whole(
        rt,
        b"all ones",
        &[
            0x002E, 0xFFFF, 0x0180, 0xFFFF, 0x01AA, 0xFFFF, 0x01BE, 0xFFFF,
        ],
    )?;
    on_zeros(rt, b"02C", &[0xC001, 0x002C, 0x0000])?;
    on_zeros(rt, b"02F", &[0xC001, 0x002F, 0x0000])?;
    on_zeros(rt, b"17E", &[0xC001, 0x017E, 0x0000])?;
    on_zeros(rt, b"181", &[0xC001, 0x0181, 0x0000])?;
    on_zeros(rt, b"1C0", &[0xC001, 0x01C0, 0x0000])?;
    on_zeros(rt, b"180 cut off", &[0xC001, 0x0180])
}

// A blit by its controls, the low halves of the pointers of A, B, C and D, and its size.
fn pointed(
    rt: &impl Print,
    name: &[u8],
    [con0, con1]: [u16; 2],
    [a, b, c, d]: [u16; 4],
    size: u16,
) -> io::Result<()> {
    let job = [
        0x0040u16, con0, 0x0042, con1, 0x0052, a, 0x004E, b, 0x004A, c, 0x0056, d, 0x0058, size,
    ];
    on_zeros(rt, name, &job)
}

// Which channel is told of a blit that leaves 16 words: the first in the order A, B, C, D of which any word lies
// outside, whichever leaves earlier. Byte 20 is word 16; a name has the word or row at which a channel leaves.
fn channels(rt: &impl Print) -> io::Result<()> {
    pointed(rt, b"A outside", [0x0F00, 0], [0x20, 0, 0, 0], 0x41)?;
    pointed(rt, b"B outside", [0x0F00, 0], [0, 0x20, 0, 0], 0x41)?;
    pointed(rt, b"C outside", [0x0F00, 0], [0, 0, 0x20, 0], 0x41)?;
    pointed(rt, b"D outside", [0x0F00, 0], [0, 0, 0, 0x20], 0x41)?;
    pointed(
        rt,
        b"A and D outside",
        [0x0900, 0],
        [0x20, 0, 0, 0x20],
        0x41,
    )?;
    pointed(
        rt,
        b"D word 1, A word 2",
        [0x0900, 0],
        [0x1C, 0, 0, 0x1E],
        0x43,
    )?;
    pointed(
        rt,
        b"D row 0, A row 1",
        [0x0900, 0],
        [0x1E, 0, 0, 0x20],
        0x81,
    )?;
    pointed(
        rt,
        b"C word 0, B word 1",
        [0x0F00, 0],
        [0, 0x1E, 0x20, 0],
        0x42,
    )?;
    pointed(rt, b"A goes round", [0x0900, 2], [0, 0, 0, 0x02], 0x42)?;
    pointed(
        rt,
        b"A, B, C not used",
        [0x0100, 0],
        [0x20, 0x20, 0x20, 0],
        0x41,
    )?;
    pointed(rt, b"D not used", [0x0E00, 0], [0, 0, 0, 0x20], 0x41)
}

// A blit of size 0000, which is 1,024 by 64 words, and a store.
fn largest_blit(rt: &impl Print) -> io::Result<()> {
    let mut ram = [0u16; 65536];
    let mut file = [0u16; file::WORDS];
    let job = [0x0040u16, 0x0100, 0x0058, 0x0000, 0x8000, 0x0000, 0x0001];
    show(
        rt,
        b"size 0000 and a store",
        runner::run(&mut ram, &mut file, &job),
    )
}

// Word i of 16 starts as i. Words 0 and 1 are copied to 8 and 9, then 11 and 13 cleared, then word 0 filled into 15,
// with stores and flags between; some registers are written with bits that they don't keep.
fn several_blits(rt: &impl Print) -> io::Result<()> {
    let mut ram = [0u16, 1, 2, 3, 4, 5, 6, 7, 8, 9, 10, 11, 12, 13, 14, 15];
    let mut file = [0u16; file::WORDS];
    let job = [
        // a store to word 0
        0x8000u16, 0x0000, 0x2418,
        // A to D, words 0 and 1 to words 8 and 9
        0x0040, 0x09F0, 0x0042, 0x0000, 0x0044, 0xFFFF, 0x0046, 0xFFFF, 0x0050, 0xFFF8, 0x0052,
        0x0001, 0x0054, 0x0000, 0x0056, 0x0011, 0x0064, 0x0001, 0x0066, 0x0003, 0x0058, 0x0042,
        0xC001,
        // a store to word 1
        0x8000, 0x0002, 0x0F0F,
        // D alone, cleared, from word 11 on: two rows of a word, a modulo of a word
        0x0040, 0x0100, 0x0058, 0x0081, 0xC000,
        // A to D descending with inclusive fill, word 0 to word 15
        0x0040, 0x09F0, 0x0042, 0x000A, 0x0052, 0x0000, 0x0056, 0x001E, 0x0058, 0x0041,
        // a store to word 3, and the flag
        0x8000, 0x0006, 0xBEEF, 0xC001,
    ];
    show(rt, b"several blits", runner::run(&mut ram, &mut file, &job))?;
    show_words(rt, b"  memory", &ram)?;
    show_file(rt, &file)
}

// A case's name, and of the answer also whether a pointer went round.
fn show_round(rt: &impl Print, name: &[u8], answer: Answer) -> io::Result<()> {
    show(rt, name, answer)?;
    if runner::answer::told(answer).round {
        rt.write_all(b"  round yes\n")?;
    } else {
        rt.write_all(b"  round no\n")?;
    }
    Ok(())
}

// A job on so many words of memory that are zero.
fn round_on<const N: usize>(rt: &impl Print, name: &[u8], job: &[u16]) -> io::Result<()>
    requires { N ≤ 262144 }
{
    show_round(rt, name, run_on_zeros::<N>(job))
}

// Paper 02, W12, on 16 words. D alone downward from word 0, a modulo of -4 bytes: after word 0 D steps to word 262,143, and
// the modulo brings it back to word 1. A refused blit gives no yes, and a refused step takes none back.
fn rounds_on_16(rt: &impl Print) -> io::Result<()> {
    round_on::<16>(
        rt,
        b"D round and back",
        &[
            0x0040u16, 0x0100, 0x0042, 0x0002, 0x0066, 0xFFFC, 0x0058, 0x0081,
        ],
    )?;
    round_on::<16>(
        rt,
        b"D round after its last word",
        &[
            0x0040u16, 0x0100, 0x0042, 0x0002, 0x0066, 0xFFFC, 0x0058, 0x0041,
        ],
    )?;
    round_on::<16>(
        rt,
        b"a yes, then a blit that stays",
        &[
            0x0040u16, 0x0100, 0x0042, 0x0002, 0x0066, 0xFFFC, 0x0058, 0x0081, 0x0058, 0x0041,
        ],
    )?;
    round_on::<16>(
        rt,
        b"a yes, then a refused store",
        &[
            0x0040u16, 0x0100, 0x0042, 0x0002, 0x0066, 0xFFFC, 0x0058, 0x0081, 0x8000, 0x0020,
            0x2222,
        ],
    )?;
    round_on::<16>(
        rt,
        b"a refused blit",
        &[0x0040u16, 0x0100, 0x0042, 0x0002, 0x0058, 0x0042],
    )
}

// On 262,144 words: a row over the top, and one that ends there; a modulo that leads below nought, and one to it; A over
// the top, with D, without D and not in use; a line whose C goes left of word 0.
fn rounds_on_most(rt: &impl Print) -> io::Result<()> {
    round_on::<262144>(
        rt,
        b"row over the top",
        &[
            0x0040u16, 0x0100, 0x0054, 0x0007, 0x0056, 0xFFFC, 0x0058, 0x0043,
        ],
    )?;
    round_on::<262144>(
        rt,
        b"row to the top",
        &[
            0x0040u16, 0x0100, 0x0054, 0x0007, 0x0056, 0xFFFC, 0x0058, 0x0042,
        ],
    )?;
    round_on::<262144>(
        rt,
        b"modulo below nought",
        &[
            0x0040u16, 0x0100, 0x0056, 0x0004, 0x0066, 0xFFF8, 0x0058, 0x0081,
        ],
    )?;
    round_on::<262144>(
        rt,
        b"modulo to nought",
        &[
            0x0040u16, 0x0100, 0x0056, 0x0004, 0x0066, 0xFFFA, 0x0058, 0x0081,
        ],
    )?;
    round_on::<262144>(
        rt,
        b"A over the top",
        &[
            0x0040u16, 0x0900, 0x0050, 0x0007, 0x0052, 0xFFFE, 0x0056, 0x0010, 0x0058, 0x0042,
        ],
    )?;
    round_on::<262144>(
        rt,
        b"A over the top, without D",
        &[
            0x0040u16, 0x0800, 0x0050, 0x0007, 0x0052, 0xFFFE, 0x0058, 0x0042,
        ],
    )?;
    round_on::<262144>(
        rt,
        b"A at the top, not used",
        &[
            0x0040u16, 0x0100, 0x0050, 0x0007, 0x0052, 0xFFFE, 0x0056, 0x0010, 0x0058, 0x0042,
        ],
    )?;
    round_on::<262144>(
        rt,
        b"line left of word 0",
        &[0x0040u16, 0x0BCA, 0x0042, 0x0055, 0x0058, 0x0082],
    )?;
    round_on::<262144>(
        rt,
        b"line of one dot there",
        &[0x0040u16, 0x0BCA, 0x0042, 0x0055, 0x0058, 0x0042],
    )
}

fn main(rt: HostRuntime) -> io::Result<()> {
    memory_sizes(&rt)?;
    files(&rt)?;
    job_lengths(&rt)?;
    on_zeros_whole(&rt, b"empty job", &[])?;
    on_zeros_whole(&rt, b"flag set and cleared", &[0xC001, 0xC000])?;
    refused_steps(&rt)?;
    colours(&rt)?;
    channels(&rt)?;
    largest_blit(&rt)?;
    several_blits(&rt)?;
    rounds_on_16(&rt)?;
    rounds_on_most(&rt)
}
