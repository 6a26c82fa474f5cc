// The bench card on lent bytes: its text read, its job run, and what that gives and leaves printed.
#![tactic(auto)]

mod printing;
mod start;

ghost use Rattle.std.specs.Prelude.{◌≡◌, ◌+◌, ◌≤◌, length};
ghost use Rattle.file.specs.Places.{file_length};
ghost use Rattle.runner.specs.Run.{run};
ghost use Rattle.card_reading.specs.Job.{write_order, writes};
ghost use Rattle.card_text.specs.Run.{counted, zeros};
ghost use Rattle.card_text.specs.Printing.{printed_run};
ghost use Rattle.card_text.specs.Card.{printed, written, writing};

use card_reading::types::Ram;

// Runs a job on memory whose word i starts as i, and registers that start as zero, and prints what it gives and leaves.
fn run_on(ram: &mut [u16], job: &[u16], out: &mut [u8]) -> usize
    requires { length ram.old ≤ 32768 }
    ensures { written result out.new
        ≡ writing (printed_run (run (counted 0 (length ram.old)) (zeros file_length) job.now)) (written 0 out.old) }
{
    crate::start::count(ram);
    let mut file = [0u16; file::WORDS];
    let told = runner::answer::told(runner::run(ram, &mut file, job));
    crate::printing::print_run(out, told.number, told.stored, ram, &file)
}

// A good card: its job, run on so many words of memory. The room is for the longest that a card may ask for.
fn good(text: &[u8], ram: Ram, out: &mut [u8]) -> usize
    requires { (ram.start + 200 ≤ length text.now) × (ram.words ≤ 32768) }
    ensures { written result out.new
        ≡ writing (printed_run (run (counted 0 ram.words) (zeros file_length) (writes text.now ram.start write_order))) (written 0 out.old) }
{
    let mut job = [0u16; 40];
    card_reading::writes::job(text, ram.start, &mut job);
    let mut room = [0u16; 32768];
    run_on(&mut room[..ram.words as usize], &job, out)
}

// Prints what a card's text asks for into an output, and answers the length of what it prints.
// What doesn't fit into the output isn't written; what it doesn't reach stays.
pub fn card(text: &[u8], out: &mut [u8]) -> usize
    ensures { written result out.new
        ≡ writing (printed text.now) (written 0 out.old) }
{
    let Some(ram) = card_reading::lines::ram_line(text) else {
        return crate::printing::print_bad(out, 1);
    };
    match card_reading::lines::bad_from(text, ram.start) {
        Some(line) => crate::printing::print_bad(out, line),
        None => good(text, ram, out),
    }
}
