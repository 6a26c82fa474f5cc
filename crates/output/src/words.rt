// A settled blit's words laid into the output.
ghost use Rattle.std.specs.Prelude.{◌≡◌, ◌+◌, ◌*◌, ◌<◌, ◌≤◌, length};
ghost use Rattle.word.specs.Laid.{laid};
ghost use Rattle.word.specs.Size.{height, width};
ghost use Rattle.stores.specs.Stores.{stores, all_zero, final_d};
ghost use Rattle.settled.specs.Words.{stores_words, settled_words};

use stores::types::Store;
use word::laying::Laying;
use word::types::Pointer;

// The most words that a settled blit has.
const MOST: usize = 64;

// The store steps of stores.
fn put_stores(out: &mut Laying<u16>, stores: &[Store])
    requires { (out.old.at < 1000000) × (length stores.now ≤ 64) }
    ensures same_run { out.new.run.ghost_name ≡ out.old.run.ghost_name }
    ensures words { out.new.run.now ≡ laid (stores_words stores.now) out.old.at out.old.run.now }
    ensures place { out.new.at ≡ out.old.at + 3 * length stores.now }
{
    for store in stores {
        crate::put::put_store(out, *store);
    }
}

// The stores of a blit of so many words; answers whether every word was zero.
fn put_blit(out: &mut Laying<u16>, file: &[u16], size: u16, many: usize) -> bool
    requires { (out.old.at < 1000000) × (many ≤ 64) × (many ≡ height size * width size) }
    ensures same_run { out.new.run.ghost_name ≡ out.old.run.ghost_name }
    ensures words { out.new.run.now
        ≡ laid (stores_words (stores file.now size)) out.old.at out.old.run.now }
    ensures place { out.new.at ≡ out.old.at + 3 * many }
    ensures flag { result ≡ all_zero (stores file.now size) }
{
    let nothing = Store {
        to: Pointer { word: 0 },
        value: 0,
    };
    let mut run = [nothing; MOST];
    let allzero = stores::stores(file, size, &mut run);
    put_stores(out, &run[..many]);
    allzero
}

// All the words of a settled blit; answers where it leaves D's pointer.
pub fn put_settled(out: &mut Laying<u16>, file: &[u16], size: u16) -> Pointer
    requires { (out.old.at < 1000000) × (height size * width size ≤ 64) }
    ensures same_run { out.new.run.ghost_name ≡ out.old.run.ghost_name }
    ensures words { out.new.run.now ≡ laid (settled_words file.now size) out.old.at out.old.run.now }
    ensures place { out.new.at ≡ out.old.at + length (settled_words file.now size) }
    ensures pointer { result ≡ final_d file.now size }
{
    let many = word::size::height(size) * word::size::width(size);
    let allzero = put_blit(out, file, size, many as usize);
    let end = stores::final_d(file, size);
    crate::put::put_end(out, end, allzero);
    end
}
