// One loop for all that makes each word of an array out of the word that stands there and others like it.
ghost use Rattle.std.specs.Prelude.{ℕ, ◌<◌, ◌≤◌};
ghost use Rattle.std.specs.Prelude.{get_or};

use crate::types::Words;

pub fn each<F: Fn(usize, u16) -> u16>(n: usize, made: F, x: &mut Words)
    requires { (n ≤ 80) × ((i word : ℕ) → i < n → word < 65536 → F.pre made i word) }
    ensures { (i : ℕ) → i < n → F.post made i (get_or x.old i 0) (get_or x.new i 0) }
{
    for i in 0..n {
        x[i] = made(i, x[i]);
    }
}
