// What a blit that is done writes back to the register file.
ghost use Rattle.std.specs.Prelude.{◌≡◌, ◌<◌};
ghost use Rattle.file.specs.Places.{file_length};
ghost use Rattle.blit.specs.WriteBack.{put_pointer, put_pointers, put_source, put_sources, write_back};

use area::types::{Flow, Pointers, Sources};
use word::types::{Pointer, Uses};

// A used channel's. A source's data register below is the same test round another write: one function of both would take
// the write as a closure, and be no shorter.
fn put_pointer(file: &mut [u16], used: bool, place: u32, pointer: Pointer)
    requires { place < file_length }
    ensures { file.new ≡ put_pointer used place pointer file.old }
{
    if used {
        file::put_pointer(file, place, pointer);
    }
}

fn put_pointers(file: &mut [u16], uses: Uses, pointers: Pointers)
    ensures { file.new ≡ put_pointers uses pointers file.old }
{
    put_pointer(file, uses.a, file::POINTER_A, pointers.a);
    put_pointer(file, uses.b, file::POINTER_B, pointers.b);
    put_pointer(file, uses.c, file::POINTER_C, pointers.c);
    put_pointer(file, uses.d, file::POINTER_D, pointers.d);
}

fn put_source(file: &mut [u16], used: bool, place: u32, word: u16)
    ensures { file.new ≡ put_source used place word file.old }
{
    if used {
        word::memory::write(file, place, word);
    }
}

fn put_sources(file: &mut [u16], uses: Uses, sources: Sources)
    ensures { file.new ≡ put_sources uses sources file.old }
{
    put_source(file, uses.a, file::SOURCE_A, sources.a);
    put_source(file, uses.b, file::SOURCE_B, sources.b);
    put_source(file, uses.c, file::SOURCE_C, sources.c);
}

fn put_all(file: &mut [u16], uses: Uses, end: Flow)
    ensures { file.new ≡ write_back uses end file.old }
{
    put_pointers(file, uses, end.pointers);
    put_sources(file, uses, end.sources);
    file::put_flag(file, end.allzero);
}

// The same calls where the file is whole: there the compiler sees that every register has its place, and tests none. By
// one way for both lengths a blit of one word costs 32 instructions more with D alone, 39 with all four channels.
pub fn write_back(file: &mut [u16], uses: Uses, end: Flow)
    ensures { file.new ≡ write_back uses end file.old }
{
    if file.len() < file::WORDS {
        put_all(file, uses, end);
        return;
    }
    put_pointers(file, uses, end.pointers);
    put_sources(file, uses, end.sources);
    file::put_flag(file, end.allzero);
}
