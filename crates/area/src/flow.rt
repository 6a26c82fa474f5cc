// What changes as a blit goes on, as it starts from the register file.
ghost use Rattle.std.specs.Prelude.{◌≡◌};
ghost use Rattle.area.specs.Flow.{pointers, sources, start_from, start};

use crate::types::{Earlier, Flow, Pointers, Sources};

pub fn pointers(file: &[u16]) -> Pointers
    ensures { result ≡ pointers file.now }
{
    let a = file::pointer_at(file, file::POINTER_A);
    let b = file::pointer_at(file, file::POINTER_B);
    let c = file::pointer_at(file, file::POINTER_C);
    let d = file::pointer_at(file, file::POINTER_D);
    Pointers { a, b, c, d }
}

fn sources(file: &[u16]) -> Sources
    ensures { result ≡ sources file.now }
{
    let a = word::memory::read(file, file::SOURCE_A);
    let b = word::memory::read(file, file::SOURCE_B);
    let c = word::memory::read(file, file::SOURCE_C);
    Sources { a, b, c }
}

// The flow from pointers that have been decoded.
pub fn start_from(pointers: Pointers, file: &[u16]) -> Flow
    ensures { result ≡ start_from pointers (sources file.now) }
{
    let sources = sources(file);
    let earlier = Earlier { a: 0, b: 0 };
    Flow {
        pointers,
        sources,
        earlier,
        carry: 0,
        allzero: true,
        stored: 0,
        pending: None,
    }
}

pub fn start(file: &[u16]) -> Flow
    ensures { result ≡ start file.now }
{
    start_from(pointers(file), file)
}
