// The keys after the first, in the card's order: each one's letters, and the offset of its register.
ghost use Rattle.std.specs.Prelude.{◌≡◌, ◌<◌, get_or};
ghost use Rattle.card_reading.specs.Keys.{letter};
ghost use Rattle.card_reading.specs.Job.{offsets};

use crate::types::Key;

const KEYS: [Key; 20] = [
    Key {
        letters: *b"con0",
        offset: 0x040,
    },
    Key {
        letters: *b"con1",
        offset: 0x042,
    },
    Key {
        letters: *b"afwm",
        offset: 0x044,
    },
    Key {
        letters: *b"alwm",
        offset: 0x046,
    },
    Key {
        letters: *b"cpth",
        offset: 0x048,
    },
    Key {
        letters: *b"cptl",
        offset: 0x04A,
    },
    Key {
        letters: *b"bpth",
        offset: 0x04C,
    },
    Key {
        letters: *b"bptl",
        offset: 0x04E,
    },
    Key {
        letters: *b"apth",
        offset: 0x050,
    },
    Key {
        letters: *b"aptl",
        offset: 0x052,
    },
    Key {
        letters: *b"dpth",
        offset: 0x054,
    },
    Key {
        letters: *b"dptl",
        offset: 0x056,
    },
    Key {
        letters: *b"size",
        offset: 0x058,
    },
    Key {
        letters: *b"cmod",
        offset: 0x060,
    },
    Key {
        letters: *b"bmod",
        offset: 0x062,
    },
    Key {
        letters: *b"amod",
        offset: 0x064,
    },
    Key {
        letters: *b"dmod",
        offset: 0x066,
    },
    Key {
        letters: *b"cdat",
        offset: 0x070,
    },
    Key {
        letters: *b"bdat",
        offset: 0x072,
    },
    Key {
        letters: *b"adat",
        offset: 0x074,
    },
];

// A letter of a key, keys and letters counted from 0.
pub fn letter(key: u32, at: u32) -> u8
    requires { (key < 20) × (at < 4) }
    ensures { result ≡ letter key at }
{
    KEYS[key as usize].letters[at as usize]
}

// The offset of a key's register.
pub fn offset(key: u32) -> u16
    requires { key < 20 }
    ensures { result ≡ get_or offsets key 0 }
{
    KEYS[key as usize].offset
}
