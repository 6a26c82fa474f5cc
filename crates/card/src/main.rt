// The bench card: reads a card from standard input and prints what it asks for.
// A good card has at most 210 bytes, so that more than 256 are never read (`FirstBytesDecide`).
#![tactic(auto)]

ghost use Rattle.std.specs.Prelude.{◌≡◌, ◌≤◌, length, IfOk};

use std::io;
use std::io::Read;

// So many bytes. The length is a parameter: of 524,416 zeros written with that number the check wasn't done in three
// minutes.
fn zeros<const MANY: usize>() -> [u8; MANY]
    ensures { MANY ≡ length result }
{
    [0; MANY]
}

// Room for the longest text that a card gives: 60 bytes and 32,768 lines of 16.
fn room() -> [u8; 524416]
    ensures { 524416 ≡ length result }
{
    zeros()
}

// Prints the first bytes of a text, as many as were written. They are all there (`TextFits`). The count is no slice: it
// goes on past the end of a text that is too short.
fn print(rt: &impl Print, text: &[u8], written: usize) -> io::Result<()> {
    if written <= text.len() {
        rt.write_all(&text[..written])?;
    }
    Ok(())
}

// Reads until the text is full or the input ends; answers how many bytes were read. The turns have no number: each read
// gives as many bytes as it likes.
fn read_full(input: &mut impl Read, text: &mut [u8]) -> io::Result<usize>
    ensures { IfOk result (λ read. read ≤ length text.new) }
{
    let mut read: usize = 0;
    while read < text.len() {
        let more = input.read(&mut text[read..])?;
        if more == 0 {
            return Ok(read);
        }
        read = read + more;
    }
    Ok(read)
}

fn main(rt: HostRuntime) -> io::Result<()> {
    let mut text = [0u8; 256];
    let mut input = rt.reader();
    let read = read_full(&mut input, &mut text)?;
    let mut space = room();
    let out: &mut [u8] = &mut space;
    let written = card_text::card(&text[..read], out);
    print(&rt, out, written)
}
