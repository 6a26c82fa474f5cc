// A line's colour numbers as colours, written into the lent run.
ghost use Rattle.std.specs.Prelude.{◌≡◌, ◌+◌, ◌*◌, ◌<◌, ◌≤◌, length};
ghost use Rattle.file.specs.Places.{file_length, colour_count};
ghost use Rattle.picture.specs.Line.{colour};
ghost use Rattle.playfield.specs.Playfield.{most_words};
ghost use Rattle.playfield.specs.Inner.Numbers.{room, UpTo};
ghost use Rattle.picture.specs.Inner.Painted.{painted, number_colour};

use playfield::types::Numbers;

// The register of a pixel's number holds its colour, of number 0 too. The numbers have room for the longest line: how
// many words of planes this line has stands beside them.
pub fn show(file: &[u16], numbers: &Numbers, words: usize, out: &mut [u16])
    requires { (length file.now ≡ file_length) × UpTo 31 numbers.now × (words ≤ most_words)
        × (16 * words ≤ length out.old) }
    ensures { out.new
        ≡ painted (number_colour file.now numbers.now) (16 * words) out.old }
{
    for pixel in 0..16 * words {
        out[pixel] = file[file::COLOUR_0 as usize + numbers[pixel] as usize];
    }
}
