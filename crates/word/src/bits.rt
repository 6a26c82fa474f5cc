// The bits of a word, the lowest of them bit 0.
ghost use Rattle.std.specs.Prelude.{◌≡◌, ◌<◌};
ghost use Rattle.word.specs.Word.{is_set};

pub fn is_set(word: u16, bit: u32) -> bool
    requires { bit < 16 }
    ensures { result ≡ is_set word bit }
{
    (word >> bit) % 2 == 1
}
