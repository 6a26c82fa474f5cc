// Text written to a lent output, one piece after the other. What lies past the output's end isn't written, but counts.
ghost use Rattle.std.specs.Prelude.{◌≡◌, false, [], ◌∷◌, ◌+◌, ◌<◌, ◌≤◌, length};
ghost use Rattle.card_reading.specs.Text.{glyph, hex4, hex5, leading, decimal};
ghost use Rattle.runner.specs.Run.{machine, ended};
ghost use Rattle.card_text.specs.Printing.{number_line, dpt_line, word_line, changed_word, changed, printed_run, printed_bad};
ghost use Rattle.card_text.specs.Card.{written, writing};

use word::laying::Laying;

// The output, and how far it is written.
type Page<'a> = Laying<'a, u8>;

fn put(page: &mut Page, byte: u8)
    requires { page.old.at < 4000000000 }
    ensures same_run { page.new.run.ghost_name ≡ page.old.run.ghost_name }
    ensures out_after { written page.new.at page.new.run.now
        ≡ writing (byte ∷ []) (written page.old.at page.old.run.now) }
    ensures value { page.new.at ≡ page.old.at + 1 }
{
    page.put(byte);
}

fn put_text(page: &mut Page, text: &[u8])
    requires { page.old.at + length text.now < 3900000000 }
    ensures same_run { page.new.run.ghost_name ≡ page.old.run.ghost_name }
    ensures out_after { written page.new.at page.new.run.now
        ≡ writing text.now (written page.old.at page.old.run.now) }
    ensures value { page.new.at ≡ page.old.at + length text.now }
{
    page.put_all(text);
}

// In capitals: `char::from_digit` gives small letters.
#[tactic(auto, unfolding(card_reading::specs::Text::glyph))]
fn glyph(digit: u32) -> u8
    requires { digit < 16 }
    ensures { result ≡ glyph digit }
{
    if digit <= 9 {
        return b'0' + digit as u8;
    }
    b'A' + (digit - 10) as u8
}

fn put_leading(page: &mut Page, power: u32, n: u32)
    requires { (page.old.at < 3900000000) × (0 < power) }
    ensures same_run { page.new.run.ghost_name ≡ page.old.run.ghost_name }
    ensures out_after { written page.new.at page.new.run.now
        ≡ writing (leading power n) (written page.old.at page.old.run.now) }
    ensures upper_bound { page.new.at ≤ page.old.at + 1 }
{
    if n < power {
        return;
    }
    put(page, glyph(n / power % 10));
}

fn put_decimal(page: &mut Page, n: u32)
    requires { page.old.at < 3800000000 }
    ensures same_run { page.new.run.ghost_name ≡ page.old.run.ghost_name }
    ensures out_after { written page.new.at page.new.run.now
        ≡ writing (decimal n) (written page.old.at page.old.run.now) }
    ensures upper_bound { page.new.at ≤ page.old.at + 5 }
{
    put_leading(page, 10000, n);
    put_leading(page, 1000, n);
    put_leading(page, 100, n);
    put_leading(page, 10, n);
    put(page, glyph(n % 10));
}

fn put_hex4(page: &mut Page, n: u32)
    requires { page.old.at < 3800000000 }
    ensures same_run { page.new.run.ghost_name ≡ page.old.run.ghost_name }
    ensures out_after { written page.new.at page.new.run.now
        ≡ writing (hex4 n) (written page.old.at page.old.run.now) }
    ensures value { page.new.at ≡ page.old.at + 4 }
{
    let digits = [
        glyph(n / 4096 % 16),
        glyph(n / 256 % 16),
        glyph(n / 16 % 16),
        glyph(n % 16),
    ];
    put_text(page, &digits);
}

fn put_hex5(page: &mut Page, n: u32)
    requires { page.old.at < 3700000000 }
    ensures same_run { page.new.run.ghost_name ≡ page.old.run.ghost_name }
    ensures out_after { written page.new.at page.new.run.now
        ≡ writing (hex5 n) (written page.old.at page.old.run.now) }
    ensures value { page.new.at ≡ page.old.at + 5 }
{
    put(page, glyph(n / 65536 % 16));
    put_hex4(page, n);
}

// A line of a key, which holds its equals sign, and a number, which counts nothing of the key.
fn number_line(page: &mut Page, is: &[u8], n: u32)
    requires { (page.old.at < 3000000000) × (length is.now < 100) }
    ensures same_run { page.new.run.ghost_name ≡ page.old.run.ghost_name }
    ensures out_after { written page.new.at page.new.run.now
        ≡ writing (number_line is.now n) (written page.old.at page.old.run.now) }
    ensures upper_bound { page.new.at ≤ page.old.at + length is.now + 6 }
{
    put_text(page, is);
    put_decimal(page, n);
    put(page, b'\n');
}

fn dpt_line(page: &mut Page, file: &[u16])
    requires { page.old.at < 3000000000 }
    ensures same_run { page.new.run.ghost_name ≡ page.old.run.ghost_name }
    ensures out_after { written page.new.at page.new.run.now
        ≡ writing (dpt_line file.now) (written page.old.at page.old.run.now) }
    ensures value { page.new.at ≡ page.old.at + 10 }
{
    let high = word::memory::read(file, file::POINTER_D) as u32;
    let low = word::memory::read(file, file::POINTER_D + 1) as u32;
    put_text(page, b"dpt=");
    put_hex5(page, high * 65536 + low);
    put(page, b'\n');
}

fn word_line(page: &mut Page, place: u32, word: u16)
    requires { page.old.at < 3000000000 }
    ensures same_run { page.new.run.ghost_name ≡ page.old.run.ghost_name }
    ensures out_after { written page.new.at page.new.run.now
        ≡ writing (word_line place word) (written page.old.at page.old.run.now) }
    ensures upper_bound { page.new.at ≤ page.old.at + 16 }
{
    put_text(page, b"word=");
    put_decimal(page, place);
    put(page, b':');
    put_hex4(page, word as u32);
    put(page, b'\n');
}

// A line for a word that isn't its own number.
fn changed_word(page: &mut Page, place: u32, word: u16)
    requires { page.old.at < 3000000000 }
    ensures same_run { page.new.run.ghost_name ≡ page.old.run.ghost_name }
    ensures out_after { written page.new.at page.new.run.now
        ≡ writing (changed_word place word) (written page.old.at page.old.run.now) }
    ensures upper_bound { page.new.at ≤ page.old.at + 16 }
{
    if word as u32 == place {
        return;
    }
    word_line(page, place, word);
}

fn changed(page: &mut Page, ram: &[u16])
    requires { (page.old.at < 1000) × (length ram.now ≤ 32768) }
    ensures same_run { page.new.run.ghost_name ≡ page.old.run.ghost_name }
    ensures out_after { written page.new.at page.new.run.now
        ≡ writing (changed 0 ram.now) (written page.old.at page.old.run.now) }
{
    for place in 0..ram.len() {
        changed_word(page, place as u32, ram[place]);
    }
}

pub fn print_run(out: &mut [u8], number: u32, stored: u32, ram: &[u16], file: &[u16]) -> usize
    requires { length ram.now ≤ 32768 }
    ensures { written result out.new
        ≡ writing (printed_run (ended number 0 (machine ram.now file.now stored false))) (written 0 out.old) }
{
    let mut page = Page { run: out, at: 0 };
    number_line(&mut page, b"answer=", number);
    number_line(&mut page, b"stored=", stored);
    let flag = word::memory::read(file, file::FLAG) as u32;
    number_line(&mut page, b"zero=", flag);
    dpt_line(&mut page, file);
    changed(&mut page, ram);
    page.at
}

pub fn print_bad(out: &mut [u8], line: u32) -> usize
    ensures { written result out.new
        ≡ writing (printed_bad line) (written 0 out.old) }
{
    let mut page = Page { run: out, at: 0 };
    number_line(&mut page, b"answer=", 12);
    number_line(&mut page, b"line=", line);
    page.at
}
