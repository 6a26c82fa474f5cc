// The rows of a blit, done on a memory of no words: the stores of each are laid into a run, one after the other.
ghost use Rattle.std.specs.Prelude.{◌≡◌, [], ◌+◌, ◌*◌, ◌<◌, ◌≤◌, set};
ghost use Rattle.word.specs.Laid.{laid};
ghost use Rattle.area.specs.Flow.{state};
ghost use Rattle.area.specs.Finish.{finish};
ghost use Rattle.area.specs.Rows.{finished_word, one_word, words, row_start, one_row, rows};
ghost use Rattle.stores.specs.Stores as specs;

use crate::types::Store;
use area::types::{Earlier, Finished, Flow, Setup};
use word::laying::Laying;

// What a blit doesn't change, and how many words its rows have.
#[derive(Clone, Copy)]
pub struct Rows {
    pub setup: Setup,
    pub width: u32,
    pub ghost few: { (setup.shifts.a < 16) × (setup.shifts.b < 16) × (width ≤ 64) },
}

impl Rows {
    // A word finished, of the same parts as a blit's. `area::finish::finish` has its one place of call in `by_word`: a
    // second one would cost it its speed there.
    fn finish(self, first: bool, last: bool, flow: Flow) -> Finished
        ensures { result ≡ finish self.setup first last flow }
    {
        let a = area::finish::masked_a(self.setup, first, last, flow);
        let word = area::finish::result(self.setup, a, flow);
        let filled = word::fill::filled(self.setup.fill, flow.carry, word);
        Finished {
            word: filled.word,
            flow: Flow {
                earlier: Earlier {
                    a,
                    b: flow.sources.b,
                },
                carry: filled.carry,
                allzero: flow.allzero & (filled.word == 0),
                ..flow
            },
        }
    }

    // The word of a row after which so many are left, and the flow after it.
    fn next_word(self, remaining: u32, flow: Flow) -> Finished
        requires { (flow.stored < 4294967295) × (remaining < 4294967295) }
        ensures word { result.word ≡ (finished_word self.setup self.width remaining (state [] flow)).word }
        ensures after { state [] result.flow ≡ one_word self.setup self.width remaining (state [] flow) }
    {
        let mut none: [u16; 0] = [];
        let setup = self.setup;
        let fetched = area::fetch::fetch(&none, setup.direction, setup.uses, flow);
        let made = self.finish(remaining + 1 == self.width, remaining == 0, fetched);
        let stored = area::store::store_pending(&mut none, made.flow);
        let waiting = area::store::wait(setup.uses.d, made.word, stored);
        Finished {
            word: made.word,
            flow: area::moves::move_d(setup.direction, setup.uses.d, waiting),
        }
    }

    // One word, and its store laid.
    fn one_store(self, out: &mut Laying<Store>, remaining: u32, flow: Flow) -> Flow
        requires { (out.old.at < 4294967296) × (flow.stored < 4294967295)
            × (remaining < 4294967295) }
        ensures same_run { out.new.run.ghost_name ≡ out.old.run.ghost_name }
        ensures stores { out.new.run.now
            ≡ set out.old.run.now out.old.at (specs.store flow.pointers.d (finished_word self.setup self.width remaining (state [] flow)).word) }
        ensures place { out.new.at ≡ out.old.at + 1 }
        ensures after { state [] result ≡ one_word self.setup self.width remaining (state [] flow) }
    {
        let after = self.next_word(remaining, flow);
        out.put(Store {
            to: flow.pointers.d,
            value: after.word,
        });
        after.flow
    }

    // The words of a row.
    fn row_stores(self, out: &mut Laying<Store>, flow: Flow) -> Flow
        requires { (out.old.at < 4000000000) × (flow.stored + self.width < 4294967296) }
        ensures same_run { out.new.run.ghost_name ≡ out.old.run.ghost_name }
        ensures stores { out.new.run.now
            ≡ laid (specs.row_stores self.setup self.width self.width (state [] flow)) out.old.at out.old.run.now }
        ensures place { out.new.at ≡ out.old.at + self.width }
        ensures after { state [] result ≡ words self.setup self.width self.width (state [] flow) }
    {
        let mut here = flow;
        for i in 0..self.width {
            here = self.one_store(out, self.width - i - 1, here);
        }
        here
    }

    // A row, with its start and its end.
    fn one_row_stores(self, out: &mut Laying<Store>, flow: Flow) -> Flow
        requires { (out.old.at < 4000000000) × (flow.stored + self.width < 4294967296) }
        ensures same_run { out.new.run.ghost_name ≡ out.old.run.ghost_name }
        ensures stores { out.new.run.now
            ≡ laid (specs.row_stores self.setup self.width self.width (row_start self.setup (state [] flow))) out.old.at out.old.run.now }
        ensures place { out.new.at ≡ out.old.at + self.width }
        ensures after { state [] result ≡ one_row self.setup self.width (state [] flow) }
    {
        let setup = self.setup;
        let started = area::rows::row_start(setup, flow);
        let end = self.row_stores(out, started);
        area::moves::row_end(setup.direction, setup.uses, setup.modulos, end)
    }

    // So many rows.
    pub fn blit_stores(self, out: &mut Laying<Store>, height: u32, flow: Flow) -> Flow
        requires { (height ≤ 1024) × (out.old.at ≤ 1000000)
            × (flow.stored + height * 64 < 4294967296) }
        ensures same_run { out.new.run.ghost_name ≡ out.old.run.ghost_name }
        ensures stores { out.new.run.now
            ≡ laid (specs.blit_stores self.setup self.width height (state [] flow)) out.old.at out.old.run.now }
        ensures after { state [] result ≡ rows self.setup self.width height (state [] flow) }
    {
        let mut here = flow;
        for _row in 0..height {
            here = self.one_row_stores(out, here);
        }
        here
    }
}
