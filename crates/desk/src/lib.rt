// The entries that a C program calls; include/desk.h declares them. A slice is two arguments there, its address and its
// count of words; results are written into lent numbers. Each gives and leaves what the call below it does.
#![tactic(auto)]

ghost use Rattle.std.specs.Prelude.{◌≡◌};
ghost use Rattle.blit.specs.Blit.{blit};
ghost use Rattle.runner.specs.Run.{run};
ghost use Rattle.folder.specs.Folding.{folding};
ghost use Rattle.widen.specs.Widen.{widening};
ghost use Rattle.instruction.specs.Effect as copper;
ghost use Rattle.copper.specs.Frame.{stopped, frame_from, frame, told};
ghost use Rattle.playfield.specs.Playfield.{playfield};
ghost use Rattle.picture.specs.Picture.{picture};
ghost use Rattle.desk.specs.Told.{yes_no, blit_told, run_told, fold_told};

// A yes or no as a number.
fn yes_no(yes: bool) -> u32
    ensures { result ≡ yes_no yes }
{
    yes as u32
}

// Does one blit.
#[unsafe(no_mangle)]
pub extern "C" fn desk_blit(
    ram: &mut [u16],
    file: &mut [u16],
    size: u16,
    number: &mut u32,
    stored: &mut u32,
    round: &mut u32,
)
    ensures { record {
      number = number.new;
      stored = stored.new;
      round = round.new;
      memory = ram.new;
      file = file.new;
    }
        ≡ blit_told (blit ram.old file.old size) }
{
    let told = blit::answer::told(blit::blit(ram, file, size));
    *number = told.number;
    *stored = told.stored;
    *round = yes_no(told.round);
}

// Runs a job.
#[unsafe(no_mangle)]
pub extern "C" fn desk_run(
    ram: &mut [u16],
    file: &mut [u16],
    job: &[u16],
    number: &mut u32,
    place: &mut u32,
    stored: &mut u32,
    round: &mut u32,
)
    ensures { record {
      number = number.new;
      place = place.new;
      stored = stored.new;
      round = round.new;
      memory = ram.new;
      file = file.new;
    }
        ≡ run_told (run ram.old file.old job.now) }
{
    let ran = runner::answer::told(runner::run(ram, file, job));
    *number = ran.number;
    *place = ran.place as u32;
    *stored = ran.stored;
    *round = yes_no(ran.round);
}

// Folds a job for memory of `words` words.
#[unsafe(no_mangle)]
pub extern "C" fn desk_fold(
    words: usize,
    job: &[u16],
    out: &mut [u16],
    number: &mut u32,
    place: &mut u32,
    long: &mut u32,
    round: &mut u32,
)
    ensures { record {
      number = number.new;
      place = place.new;
      long = long.new;
      round = round.new;
      out = out.new;
    }
        ≡ fold_told (folding words job.now out.old) }
{
    let folded = folder::answer::told(folder::fold(words, job, out));
    *number = folded.number;
    *place = folded.place as u32;
    *long = folded.length as u32;
    *round = yes_no(folded.round);
}

// Turns an old register file into a new one.
#[unsafe(no_mangle)]
pub extern "C" fn desk_widen(old: &[u16], target: &mut [u16], number: &mut u32)
    ensures { record { number = number.new; target = target.new }
        ≡ widening old.now target.old }
{
    let answer = widen::widen(old, target);
    *number = widen::answer::number(answer);
}

// Runs a Copper list for one frame.
#[unsafe(no_mangle)]
pub extern "C" fn desk_frame(
    ram: &mut [u16],
    file: &mut [u16],
    start: u32,
    lent: u32,
    why: &mut u32,
    number: &mut u32,
    done: &mut u32,
    word: &mut u32,
)
    ensures { record {
      why = why.new;
      number = number.new;
      done = done.new;
      word = word.new;
      memory = ram.new;
      file = file.new;
    }
        ≡ told (frame ram.old file.old start lent) }
{
    let answer = copper::frame(ram, file, start, lent);
    *why = answer.why.number();
    *number = answer.why.refusal_number();
    *done = answer.done;
    *word = answer.here.word;
}

// Runs the rest of a frame from a place of the beam on, and tells where the beam stands.
#[unsafe(no_mangle)]
pub extern "C" fn desk_frame_from(
    ram: &mut [u16],
    file: &mut [u16],
    beam: u32,
    start: u32,
    lent: u32,
    why: &mut u32,
    number: &mut u32,
    done: &mut u32,
    word: &mut u32,
    place: &mut u32,
)
    ensures { stopped why.new number.new done.new
        (copper.moment ram.new file.new place.new word.new)
        ≡ frame_from ram.old file.old beam start lent }
{
    let answer = copper::frame_from(ram, file, beam, start, lent);
    *why = answer.why.number();
    *number = answer.why.refusal_number();
    *done = answer.done;
    *word = answer.here.word;
    *place = answer.here.beam;
}

// Writes one line of picture.
#[unsafe(no_mangle)]
pub extern "C" fn desk_picture(
    ram: &[u16],
    file: &[u16],
    planes: &[u32],
    words: u32,
    odd: u32,
    even: u32,
    out: &mut [u16],
    number: &mut u32,
)
    ensures { record { number = number.new; out = out.new }
        ≡ picture ram.now file.now (playfield planes.now words odd even) out.old }
{
    let answer = picture::picture(ram, file, planes, words, odd, even, out);
    *number = picture::answer::number(answer);
}
