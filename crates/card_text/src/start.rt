// The memory that a card starts with.
ghost use Rattle.std.specs.Prelude.{◌≡◌, ◌≤◌, length};
ghost use Rattle.card_text.specs.Run.{counted};

// Word i becomes i.
pub fn count(ram: &mut [u16])
    requires { length ram.old ≤ 32768 }
    ensures { ram.new ≡ counted 0 (length ram.old) }
{
    for at in 0..ram.len() {
        ram[at] = at as u16;
    }
}
