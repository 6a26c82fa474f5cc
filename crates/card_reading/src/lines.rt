// A card's lines.
ghost use Rattle.std.specs.Prelude.{◌≡◌, ◌+◌, ◌<◌, ◌≤◌, true, length};
ghost use Rattle.card_reading.specs.Text.{decimal_digit};
ghost use Rattle.card_reading.specs.RamLine.{with_digit, ram_key};
ghost use Rattle.card_reading.specs.Reading.{key_at, word_at, key_line};
ghost use Rattle.card_reading.specs.Inner.Ram.{ram_read, ram_ended, bad_read};

use crate::keys::letter;
use crate::text::{byte, decimal_digit, hex_digit};
use crate::types::Ram;

#[tactic(auto, unfolding(crate::specs::RamLine::ram_key))]
fn ram_key(text: &[u8]) -> bool
    ensures { result ≡ ram_key text.now }
{
    text.starts_with(b"ram=")
}

// What the digits before a place give, when none follows. Here and below a place stands beside the text, and no slice
// begins there: the definitions count places from the text's front.
fn ram_ended(text: &[u8], at: usize, words: u32) -> Option<Ram>
    ensures { result ≡ ram_ended text.now at words }
{
    if words == 0 {
        return None;
    }
    if text.len() <= at {
        return None;
    }
    if text[at] == b'\n' {
        return Some(Ram {
            words,
            start: at + 1,
        });
    }
    None
}

fn with_digit(words: u32, digit: u8) -> u32
    requires { (words ≤ 32768) × (decimal_digit digit ≡ true) }
    ensures { result ≡ with_digit words digit }
{
    words * 10 + (digit - b'0') as u32
}

// The digits are read only as long as the number is small enough.
pub fn ram_line(text: &[u8]) -> Option<Ram>
    ensures { result ≡ ram_read text.now }
{
    if !ram_key(text) {
        return None;
    }
    if byte(text, 4) == b'0' {
        return None;
    }
    let mut words: u32 = 0;
    for at in 4..text.len() {
        let here = text[at];
        if !decimal_digit(here) {
            return ram_ended(text, at, words);
        }
        words = with_digit(words, here);
        if 32768 < words {
            return None;
        }
    }
    None
}

// A key is a plain number below 20, as the definitions count keys: each table would take a type of it apart again.
fn key_at(text: &[u8], at: usize, key: u32) -> bool
    requires { (at + 10 ≤ length text.now) × (key < 20) }
    ensures { result ≡ key_at text.now at key }
{
    (text[at] == letter(key, 0))
        & (text[at + 1] == letter(key, 1))
        & (text[at + 2] == letter(key, 2))
        & (text[at + 3] == letter(key, 3))
}

fn word_at(text: &[u8], at: usize) -> bool
    requires { at + 4 ≤ length text.now }
    ensures { result ≡ word_at text.now at }
{
    hex_digit(text[at])
        & hex_digit(text[at + 1])
        & hex_digit(text[at + 2])
        & hex_digit(text[at + 3])
}

fn key_line(text: &[u8], at: usize, key: u32) -> bool
    requires { (at ≤ length text.now) × (key < 20) }
    ensures { result ≡ key_line text.now at key }
{
    if text.len() - at < 10 {
        return false;
    }
    let equals = text[at + 4];
    let end = text[at + 9];
    key_at(text, at, key) & (equals == b'=') & word_at(text, at + 5) & (end == b'\n')
}

// The first bad line after the first, where one is.
pub fn bad_from(text: &[u8], start: usize) -> Option<u32>
    requires { start ≤ length text.now }
    ensures { result ≡ bad_read text.now start }
{
    for key in 0..20 {
        if !key_line(text, start + key as usize * 10, key) {
            return Some(key + 2);
        }
    }
    if start + 200 == text.len() {
        return None;
    }
    Some(22)
}
