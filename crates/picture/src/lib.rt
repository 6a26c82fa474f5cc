// One line of picture: what the screen shows of a playfield of one to five bit planes, in colours.
#![tactic(auto)]

pub mod answer;
pub mod refuse;
pub mod show;
pub mod theorems;
pub mod types;

ghost use Rattle.std.specs.Prelude.{◌≡◌, ◌*◌, ◌≤◌, length};
ghost use Rattle.file.specs.Places.{file_length};
ghost use Rattle.playfield.specs.Playfield.{playfield};
ghost use Rattle.picture.specs.Picture.{with_line, picture, left};
ghost use Rattle.playfield.specs.Inner.Numbers.{Drawable};

use crate::types::Refusal;
use playfield::types::{Numbers, Playfield};

// The line's colours into the front of the run.
fn draw(ram: &[u16], file: &[u16], field: Playfield, out: &mut [u16])
    requires { Drawable (length ram.now) (playfield field.planes.now field.words field.odd field.even)
        × (length file.now ≡ file_length) × (16 * field.words ≤ length out.old) }
    ensures { out.new
        ≡ with_line ram.now file.now (playfield field.entry.planes.now field.entry.words field.entry.odd field.entry.even)
        out.old }
{
    let mut numbers: Numbers = [0; 656];
    playfield::lay_planes(ram, field, &mut numbers);
    show::show(file, &numbers, field.words, out);
}

// Writes what the screen shows of one line, a colour a pixel. A refusal leaves the run unchanged. The playfield is
// plain numbers, as `desk_picture` has them from C.
pub fn picture(
    ram: &[u16],
    file: &[u16],
    planes: &[u32],
    words: u32,
    odd: u32,
    even: u32,
    out: &mut [u16],
) -> Result<(), Refusal>
    ensures { left result out.new
        ≡ picture ram.now file.now (playfield planes.now words odd even)
        out.old }
{
    let field = Playfield {
        planes,
        words: words as usize,
        odd: odd as usize,
        even: even as usize,
    };
    if word::memory::memory_size(ram.len()) {
        return Err(Refusal::MemorySize);
    }
    if !file::accepted(file) {
        return Err(Refusal::RegisterFile);
    }
    if refuse::bad_playfield(field) {
        return Err(Refusal::BadPlayfield);
    }
    if out.len() < 16 * field.words {
        return Err(Refusal::TooShort);
    }
    if !refuse::all_inside(ram.len(), planes, words) {
        return Err(Refusal::Leaves);
    }
    draw(ram, file, field, out);
    Ok(())
}
