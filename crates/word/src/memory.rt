// Memory's size, and lent words read and written by index, at any place: past the end 0 is read, nothing is written.
ghost use Rattle.std.specs.Prelude.{◌≡◌, get_or, set, take, drop};
ghost use Rattle.word.specs.Laid.{laid};
ghost use Rattle.word.specs.Memory.{memory_size};

use crate::pointer::POINTER_END;

// Whether memory is refused, whatever is to be done on it.
pub fn memory_size(n: usize) -> bool
    ensures { result ≡ memory_size n }
{
    (n == 0) | ((POINTER_END as usize) < n)
}

pub fn read(words: &[u16], at: u32) -> u16
    ensures { result ≡ get_or words.now at 0 }
{
    words.get(at as usize).copied().unwrap_or(0)
}

// By an index: what the library says of `get_mut` is the length alone.
pub fn write(words: &mut [u16], at: u32, value: u16)
    ensures { words.new ≡ set words.old at value }
{
    let i = at as usize;
    if i < words.len() {
        words[i] = value;
    }
}

// Words of one run, from a place of it on, laid into another: so many, as far as both runs go.
pub fn copy(out: &mut [u16], at: usize, words: &[u16], from: usize, count: usize)
    ensures { out.new
        ≡ laid (take count (drop from words.now)) at out.old }
{
    if (words.len() <= from) | (out.len() <= at) {
        return;
    }
    let many = count.min(words.len() - from).min(out.len() - at);
    out[at..at + many].copy_from_slice(&words[from..from + many]);
}
