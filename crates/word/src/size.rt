// The size register: height and width in words, of which zero means the most.
ghost use Rattle.std.specs.Prelude.{◌≡◌, eqb, if◌then◌else◌};
ghost use Rattle.word.specs.Size.{height, width};

fn or_most(field: u16, most: u32) -> u32
    ensures { result ≡ (if eqb field 0 then most else field) }
{
    if field == 0 {
        return most;
    }
    field as u32
}

pub fn height(size: u16) -> u32
    ensures { result ≡ height size }
{
    or_most(size / 64 % 1024, 1024)
}

pub fn width(size: u16) -> u32
    ensures { result ≡ width size }
{
    or_most(size % 64, 64)
}
