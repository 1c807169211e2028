// The planner for C (include/planner.h): what the library `planner` has, under its name in C.
#![tactic(auto)]

ghost use Rattle.std.specs.Prelude.{◌≡◌};
ghost use Rattle.model.specs.File.{read_file};
ghost use Rattle.deckfile.specs.Answer.{answer_number, answer_buffer};
ghost use Rattle.planner.specs.Entry.{to_end};

// Reads a deck file, runs to the end and writes the deck into `out` (SPEC 10.1). Returns how many bytes were written, which are 30 at least,
// or the number of the refusal.
#[unsafe(no_mangle)]
pub extern "C" fn planner_plan(file: &[u8], out: &mut [u8]) -> usize
    ensures value { result ≡ answer_number (read_file file.now) to_end out.old }
    ensures out_after { out.new ≡ answer_buffer (read_file file.now) to_end out.old }
{
    planner::planner_plan(file, out)
}
