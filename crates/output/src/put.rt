// Words laid into the output.
ghost use Rattle.std.specs.Prelude.{◌≡◌, [], ◌∷◌, ◌++◌, ◌+◌, ◌<◌, length};
ghost use Rattle.settled.specs.Words.{store_words, pointer_words, flag_words};
ghost use Rattle.word.specs.Laid.{laid};

use stores::types::Store;
use word::laying::Laying;
use word::types::Pointer;

// A store step.
pub fn put_store(out: &mut Laying<u16>, store: Store)
    requires { out.old.at < 4294967000 }
    ensures same_run { out.new.run.ghost_name ≡ out.old.run.ghost_name }
    ensures words { out.new.run.now
        ≡ laid (store_words store.to store.value) out.old.at out.old.run.now }
    ensures place { out.new.at ≡ out.old.at + 3 }
{
    out.put_all(&[0x8000 + store.to.high(), store.to.low(), store.value]);
}

fn flag_word(allzero: bool) -> u16
    ensures { (result ∷ []) ≡ flag_words allzero }
{
    if allzero { 0xC001 } else { 0xC000 }
}

// What follows a settled blit's stores: writes of 054 and 056 with the final D pointer, then the flag step.
pub fn put_end(out: &mut Laying<u16>, pointer: Pointer, allzero: bool)
    requires { out.old.at < 4294966000 }
    ensures same_run { out.new.run.ghost_name ≡ out.old.run.ghost_name }
    ensures words { out.new.run.now
        ≡ laid (pointer_words pointer ++ flag_words allzero) out.old.at out.old.run.now }
    ensures place { out.new.at ≡ out.old.at + 5 }
{
    let flag = flag_word(allzero);
    out.put_all(&[0x0054, pointer.high(), 0x0056, pointer.low(), flag]);
}

// Words of the job, as they stand.
pub fn put_copied(out: &mut Laying<u16>, raw: &[u16])
    requires { out.old.at + length raw.now < 4294967000 }
    ensures same_run { out.new.run.ghost_name ≡ out.old.run.ghost_name }
    ensures words { out.new.run.now ≡ laid raw.now out.old.at out.old.run.now }
    ensures place { out.new.at ≡ out.old.at + length raw.now }
{
    out.put_all(raw);
}
