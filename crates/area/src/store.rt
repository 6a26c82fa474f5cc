// The pending word: a final word waits, and is stored once the next word's sources are fetched.
ghost use Rattle.std.specs.Prelude.{◌≡◌, ◌<◌};
ghost use Rattle.area.specs.Flow.{state};
ghost use Rattle.area.specs.With.{with_stores};
ghost use Rattle.area.specs.Store.{wait, memory_with, count_with, store_pending};

use crate::types::{Flow, Pending};

// The flow with another count and another pending word.
fn with_stores(stored: u32, pending: Option<Pending>, flow: Flow) -> Flow
    ensures { result ≡ with_stores stored pending flow }
{
    Flow {
        stored,
        pending,
        ..flow
    }
}

// The final word waits, if D is used, for the place of D's pointer.
pub fn wait(used: bool, word: u16, flow: Flow) -> Flow
    ensures { result ≡ wait used word flow }
{
    let place = flow.pointers.d.word;
    let pending = used.then_some(Pending { place, word });
    with_stores(flow.stored, pending, flow)
}

// Memory with the pending word.
fn put(ram: &mut [u16], pending: Option<Pending>)
    ensures { ram.new ≡ memory_with pending ram.old }
{
    if let Some(pending) = pending {
        word::memory::write(ram, pending.place, pending.word);
    }
}

// The count with the pending word.
fn counted(pending: Option<Pending>, stored: u32) -> u32
    requires { stored < 4294967295 }
    ensures { result ≡ count_with pending stored }
{
    match pending {
        Some(_) => stored + 1,
        None => stored,
    }
}

// Stores the pending word, and counts it.
pub fn store_pending(ram: &mut [u16], flow: Flow) -> Flow
    requires { flow.stored < 4294967295 }
    ensures { state ram.new result ≡ store_pending (state ram.old flow) }
{
    let pending = flow.pending;
    put(ram, pending);
    with_stores(counted(pending, flow.stored), None, flow)
}
