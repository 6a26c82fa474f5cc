// The register file: where each register stands, and which of its bits are kept.
#![tactic(auto)]

ghost use Rattle.std.specs.Prelude.{◌≡◌, ◌+◌, ◌<◌, ◌≤◌, length, get_or};
ghost use Rattle.word.specs.Choice.{every};
ghost use Rattle.file.specs.Places.{file_length, colour_count, colour0};
ghost use Rattle.file.specs.File.{place, kept_bits, kept, kept_at, accepted};
ghost use Rattle.file.specs.Pointers.{pointer_at, with_pointer, put_flag};

use word::types::Pointer;

// How many words a file has.
// A file is a lent slice: its length is tested once, by `accepted`, and who reads on from there says so.
pub const WORDS: usize = 53;

// Places are plain numbers, as a job and a list give them: past the file's end nothing is read or written.
// Its places by name; of a pointer, the place of its high half, which its low half follows.
pub const CONTROL_0: u32 = 0;

pub const CONTROL_1: u32 = 1;

pub const FIRST_MASK: u32 = 2;

pub const LAST_MASK: u32 = 3;

pub const POINTER_C: u32 = 4;

pub const POINTER_B: u32 = 6;

pub const POINTER_A: u32 = 8;

pub const POINTER_D: u32 = 10;

pub const MODULO_C: u32 = 12;

pub const MODULO_B: u32 = 13;

pub const MODULO_A: u32 = 14;

pub const MODULO_D: u32 = 15;

pub const SOURCE_C: u32 = 16;

pub const SOURCE_B: u32 = 17;

pub const SOURCE_A: u32 = 18;

pub const COPCON: u32 = 19;

pub const COLOUR_0: u32 = 20;

// The zero flag stands last; no offset reaches it.
pub const FLAG: u32 = 52;

// No Option: the definition gives the flag's place too, and who asks for a register's asks for less than FLAG.
// The place of the register with an offset; the flag's where none has it. The offsets lie in runs, each two above the
// one before: a test where a run begins, and one where it ends. The colours, which lists write most, are tried first.
pub fn place(offset: u16) -> u32
    ensures { result ≡ place offset }
{
    let half = (offset / 2) as u32;
    if offset % 2 == 1 {
        return FLAG;
    }
    if 0x180 <= offset {
        if offset <= 0x1BE {
            return half - 0x0C0 + COLOUR_0;
        }
        return FLAG;
    }
    if offset < 0x040 {
        if offset == 0x02E {
            return COPCON;
        }
        return FLAG;
    }
    if offset <= 0x056 {
        return half - 0x020;
    }
    if offset < 0x060 {
        return FLAG;
    }
    if offset <= 0x066 {
        return half - 0x030 + MODULO_C;
    }
    if offset < 0x070 {
        return FLAG;
    }
    if offset <= 0x074 {
        return half - 0x038 + SOURCE_C;
    }
    FLAG
}

// The bits that are kept at a place of the file; none past its end. The colours' come first, as in `place`.
fn bits(place: u32) -> u16
    ensures { result ≡ get_or kept_bits place 0 }
{
    if COLOUR_0 <= place {
        if place < FLAG {
            return 0x0FFF;
        }
        if place == FLAG {
            return 0x0001;
        }
        return 0;
    }
    if place < POINTER_C {
        return 0xFFFF;
    }
    if place < MODULO_C {
        if place % 2 == 0 {
            return 0x0007;
        }
        return 0xFFFE;
    }
    if place < SOURCE_C {
        return 0xFFFE;
    }
    if place < COPCON {
        return 0xFFFF;
    }
    0x0002
}

// What a register keeps of a value; nothing past the file's end.
pub fn kept(place: u32, value: u16) -> u16
    ensures { result ≡ kept place value }
{
    value & bits(place)
}

// Of a file's first words none has a bit set that isn't kept.
// The count stands beside the file: the definition counts places of the whole file.
pub fn keeps(file: &[u16], words: u32) -> bool
    requires { words ≤ length file.now }
    ensures { result ≡ every (kept_at file.now) words }
{
    let mut fine = true;
    for at in 0..words {
        let value = file[at as usize];
        fine &= kept(at, value) == value;
    }
    fine
}

// The same of the colours. They all keep the same bits, so that the compiler can look at eight at once.
fn colours_keep(file: &[u16]) -> bool
    requires { length file.now ≡ file_length }
    ensures { result ≡ every (λ colour. kept_at file.now (colour0 + colour)) colour_count }
{
    let mut fine = true;
    for value in &file[COLOUR_0 as usize..FLAG as usize] {
        fine &= *value & 0x0FFF == *value;
    }
    fine
}

// The file is 53 words, and no bit is set that isn't kept.
pub fn accepted(file: &[u16]) -> bool
    ensures { result ≡ accepted file.now }
{
    if file.len() != WORDS {
        return false;
    }
    let flag = file[FLAG as usize];
    (kept(FLAG, flag) == flag) & (colours_keep(file) & keeps(file, COLOUR_0))
}

// The pointer in the two registers from a place on.
pub fn pointer_at(file: &[u16], place: u32) -> Pointer
    requires { place < file_length }
    ensures { result ≡ pointer_at file.now place }
{
    let high = word::memory::read(file, place);
    let low = word::memory::read(file, place + 1);
    word::pointer::pointer(high, low)
}

pub fn put_pointer(file: &mut [u16], place: u32, pointer: Pointer)
    requires { place < file_length }
    ensures { file.new ≡ with_pointer place pointer file.old }
{
    word::memory::write(file, place, pointer.high());
    word::memory::write(file, place + 1, pointer.low());
}

pub fn put_flag(file: &mut [u16], allzero: bool)
    ensures { file.new ≡ put_flag allzero file.old }
{
    word::memory::write(file, FLAG, u16::from(allzero));
}
