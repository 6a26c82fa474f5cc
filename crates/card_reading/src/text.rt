// Bytes of a text, read at any place: past the end 0 is read; and the digits among them.
ghost use Rattle.std.specs.Prelude.{◌≡◌, ◌+◌, ◌<◌, ◌≤◌, length, get_or};
ghost use Rattle.card_reading.specs.Text.{decimal_digit, capital, hex_digit, hex_value, hex_word};

pub fn byte(text: &[u8], at: usize) -> u8
    ensures { result ≡ get_or text.now at 0 }
{
    text.get(at).copied().unwrap_or(0)
}

#[tactic(auto, unfolding(crate::specs::Text::decimal_digit))]
pub fn decimal_digit(byte: u8) -> bool
    ensures { result ≡ decimal_digit byte }
{
    byte.is_ascii_digit()
}

#[tactic(auto, unfolding(crate::specs::Text::capital))]
fn capital(byte: u8) -> bool
    ensures { result ≡ capital byte }
{
    (b'A' <= byte) & (byte <= b'F')
}

#[tactic(auto, unfolding(crate::specs::Text::hex_digit))]
pub fn hex_digit(byte: u8) -> bool
    ensures { result ≡ hex_digit byte }
{
    decimal_digit(byte) | capital(byte)
}

// A char's `to_digit` takes small letters too, which are no digits of a card.
fn hex_value(byte: u8) -> u16
    ensures value { result ≡ hex_value byte }
    ensures upper_bound { result < 16 }
{
    if decimal_digit(byte) {
        return (byte - b'0') as u16;
    }
    if capital(byte) {
        return (byte - b'A' + 10) as u16;
    }
    0
}

// The word that four hex digits spell.
pub fn hex_word(text: &[u8], at: usize) -> u16
    requires { at + 4 ≤ length text.now }
    ensures { result ≡ hex_word text.now at }
{
    let first = hex_value(text[at]);
    let second = hex_value(text[at + 1]);
    let third = hex_value(text[at + 2]);
    let fourth = hex_value(text[at + 3]);
    first * 4096 + second * 256 + third * 16 + fourth
}
