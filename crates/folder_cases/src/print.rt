// What a folding gives and leaves, printed.
use folder::types::Answer;
use std::io;

// A case's name, and the answer's number, place and length. The runner's answer that `runner_cases` prints is another
// type: it has a count of words stored for the length.
pub fn answer(rt: &impl Print, name: &[u8], answer: Answer) -> io::Result<()> {
    let told = folder::answer::told(answer);
    rt.write_all(name)?;
    rt.write_all(b": number ")?;
    rt.print(told.number as u64)?;
    rt.write_all(b" place ")?;
    rt.print(told.place as u64)?;
    rt.write_all(b" length ")?;
    rt.print(told.length as u64)?;
    rt.write_all(b"\n")
}

// Words in hex, on a line of their own.
pub fn words(rt: &impl Print, name: &[u8], words: &[u16]) -> io::Result<()> {
    rt.write_all(name)?;
    show_words::words(rt, words)?;
    rt.write_all(b"\n")
}

// Whether a blit was kept for going round alone, on a line of its own.
pub fn round(rt: &impl Print, answer: Answer) -> io::Result<()> {
    if folder::answer::told(answer).round {
        rt.write_all(b"  round yes\n")?;
    } else {
        rt.write_all(b"  round no\n")?;
    }
    Ok(())
}

// A job folded for n words of memory into an output of 28 words that hold EEEE; where it is asked for, whether a blit
// was kept for going round alone as well.
fn shown(rt: &impl Print, name: &[u8], n: usize, job: &[u16], with_round: bool) -> io::Result<()> {
    let mut out = [0xEEEEu16; 28];
    let folding = folder::fold(n, job, &mut out);
    answer(rt, name, folding)?;
    if with_round {
        round(rt, folding)?;
    }
    words(rt, b"  out", &out)
}

// A folding, and whether a blit was kept for going round alone.
pub fn folded_round(rt: &impl Print, name: &[u8], n: usize, job: &[u16]) -> io::Result<()> {
    shown(rt, name, n, job, true)
}

// A folding alone.
pub fn folded(rt: &impl Print, name: &[u8], n: usize, job: &[u16]) -> io::Result<()> {
    shown(rt, name, n, job, false)
}
