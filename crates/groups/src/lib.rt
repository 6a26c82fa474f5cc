// A blit's stores gathered into groups, and the words of these laid into a run.
#![tactic(auto)]

ghost use Rattle.std.specs.Prelude.{◌≡◌, [], ◌∷◌, ◌+◌, ◌<◌, ◌≤◌, eqb, length, take};
ghost use Rattle.word.specs.Laid.{laid};
ghost use Rattle.groups.specs.Words.{stores_words};
ghost use Rattle.groups.specs.Inner.Leading.{leading};
ghost use Rattle.groups.specs.Inner.Values.{places, values, group_step};

pub mod theorems;

use stores::types::Store;
use word::laying::Laying;

// The values of stores, one after the other.
fn put_values(out: &mut Laying<u16>, stores: &[Store])
    requires { (out.old.at < 2000000) × (length stores.now ≤ 64) }
    ensures same_run { out.new.run.ghost_name ≡ out.old.run.ghost_name }
    ensures words { out.new.run.now ≡ laid (values stores.now) out.old.at out.old.run.now }
    ensures place { out.new.at ≡ out.old.at + length stores.now }
{
    for store in stores {
        out.put(store.value);
    }
}

// The step of stores for rising addresses, a lone one as a store.
fn put_group(out: &mut Laying<u16>, stores: &[Store])
    requires { (out.old.at < 1000200) × (1 ≤ length stores.now) × (length stores.now ≤ 64) }
    ensures same_run { out.new.run.ghost_name ≡ out.old.run.ghost_name }
    ensures words { out.new.run.now ≡ laid (group_step stores.now) out.old.at out.old.run.now }
    ensures place { out.new.at ≡ out.old.at + length (group_step stores.now) }
{
    let first = stores[0];
    let count = stores.len();
    if 1 < count {
        out.put_all(&[0x9000 + first.to.high(), first.to.low(), count as u16]);
        put_values(out, stores);
        return;
    }
    out.put_all(&[0x8000 + first.to.high(), first.to.low(), first.value]);
}

// Whether a place is one word further on than the place before it.
fn next_to(before: u32, place: u32) -> bool
    ensures { result ≡ eqb (before + 1) place }
{
    if place <= before {
        return false;
    }
    if place - before < 2 {
        return true;
    }
    false
}

// How many stores, from the first on, rise one by one.
fn neighbours(stores: &[Store]) -> usize
    requires { 1 ≤ length stores.now }
    ensures { (result ≡ leading (places stores.now)) × (1 ≤ result) × (result ≤ length stores.now) }
{
    let end = stores.len() - 1;
    for last in 0..end {
        if !next_to(stores[last].to.word, stores[last + 1].to.word) {
            return last + 1;
        }
    }
    end + 1
}

// So many stores of a run, gathered. The run holds more than they: what is left of a blit before stands behind them.
pub fn put_stores(out: &mut Laying<u16>, run: &[Store], many: usize)
    requires { (out.old.at < 1000000) × (many ≤ 64) × (many ≤ length run.now) }
    ensures same_run { out.new.run.ghost_name ≡ out.old.run.ghost_name }
    ensures words { out.new.run.now ≡ laid (stores_words (take many run.now)) out.old.at out.old.run.now }
    ensures place { out.new.at ≡ out.old.at + length (stores_words (take many run.now)) }
{
    let mut rest = &run[..many];
    // Each turn takes the stores that rise one by one: how many those are no range counts.
    while 0 < rest.len() {
        let count = neighbours(rest);
        put_group(out, &rest[..count]);
        rest = &rest[count..];
    }
}
