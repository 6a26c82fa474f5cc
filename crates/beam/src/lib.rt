// The beam of one frame: its places, where a comparison is satisfied, and where a WAIT takes it.
#![tactic(auto)]

ghost use Rattle.std.specs.Prelude.{◌≡◌, false, ◌-◌, ◌<◌, ◌≤◌};
ghost use Rattle.beam.specs.Beam.{frame_end, line};
ghost use Rattle.beam.specs.Satisfied.{mask, compared, satisfied};
ghost use Rattle.beam.specs.Wait.{first_satisfied, waited};
ghost use Rattle.beam.specs.Inner.LineBelow.{line_below};

// The first place past the frame.
pub const END: u32 = 59474;

// The second word with its bit 15 set and bit 0 clear.
fn mask(second: u16) -> u32
    ensures { result ≡ mask second }
{
    ((second as u32) & 0xFFFE) | 0x8000
}

// What the beam's place is compared as: 256 and more lines begin again at 0.
fn compared(place: u32) -> u32
    ensures { result ≡ compared place }
{
    place / 227 % 256 * 256 + place % 227
}

// A WAIT or a SKIP of two words is satisfied at a place.
// Both words as they stand, and a place, are what the paper compares.
pub fn satisfied(first: u16, second: u16, place: u32) -> bool
    ensures { result ≡ satisfied first second place }
{
    let bits = mask(second);
    (first as u32) & bits <= compared(place) & bits
}

// The line of a place lies, masked, below the first word's line: nowhere on it is the comparison satisfied.
fn line_below(first: u16, second: u16, place: u32) -> bool
    ensures { result ≡ line_below first second (line place) }
{
    let bits = mask(second) / 256;
    place / 227 % 256 & bits < (first as u32) / 256 & bits
}

// The place to try after one that isn't satisfied. A line that lies below is passed whole; on any other the position's
// byte decides.
fn next_tried(first: u16, second: u16, place: u32) -> u32
    requires { (place < frame_end) × (satisfied first second place ≡ false) }
    ensures { (place < result) × (result ≤ frame_end)
        × (first_satisfied first second (frame_end - result) result ≡ first_satisfied first second (frame_end - place) place) }
{
    let start = place / 227 * 227;
    if line_below(first, second, place) {
        return start + 227;
    }
    let bits = mask(second) % 256;
    let least = (first as u32) % 256 & bits;
    for position in place % 227 + 1..227 {
        if least <= position & bits {
            return start + position;
        }
    }
    start + 227
}

// The first place at or after one where a comparison is satisfied; past the frame where there is none. From place to place
// it goes by what is to be tried next, which no range counts.
fn first_satisfied(first: u16, second: u16, from: u32) -> u32
    ensures { result ≡ first_satisfied first second (frame_end - from) from }
{
    let mut place = from;
    while place < END {
        if satisfied(first, second, place) {
            return place;
        }
        place = next_tried(first, second, place);
    }
    place
}

// Where a WAIT that starts at a place takes the beam.
pub fn waited(first: u16, second: u16, beam: u32) -> u32
    requires { beam < frame_end }
    ensures { result ≡ waited first second beam }
{
    first_satisfied(first, second, beam + 6)
}
