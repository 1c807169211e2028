// What the quote program calls: a deck file planned to the end.
#![tactic(auto)]

ghost use Rattle.std.specs.Prelude.{◌≡◌};
ghost use Rattle.model.specs.File.{read_file};
ghost use Rattle.deckfile.specs.Answer.{answer_number, answer_buffer};
ghost use Rattle.planner.specs.Entry.{to_end};

use calls::run_to_end;
use deckfile::answer::number_of;
use deckfile::{take_file, write_working};

// Reads a deck file, runs to the end and writes the deck into `out` (SPEC 10.1). Returns how many bytes were written, which are 30 at least,
// or the number of the refusal.
// Stays: one number for a length and for a refusal, which is the number that C gets (SPEC 10.1).
pub fn planner_plan(file: &[u8], out: &mut [u8]) -> usize
    ensures value { result ≡ answer_number (read_file file.now) to_end out.old }
    ensures out_after { out.new ≡ answer_buffer (read_file file.now) to_end out.old }
{
    match take_file(file) {
        Ok(deck) => {
            let planned = run_to_end(deck).working;
            number_of(write_working(planned, out))
        }
        Err(n) => usize::from(n),
    }
}
