// Lists of calls for C (include/replay.h): what the library `replay` has, under its name in C.
#![tactic(auto)]

ghost use Rattle.std.specs.Prelude.{◌≡◌};
ghost use Rattle.deckfile.specs.Answer.{answer_number, answer_buffer};
ghost use Rattle.replay.specs.Calls.{start_of, calls_of};

// Makes a list of calls, twelve bytes each, on the deck of a file, or on an empty deck where `file` has no bytes, and writes the deck that
// they leave into `out` (SPEC 10.2). Returns how many bytes were written, which are 30 at least, or the number of the refusal.
#[unsafe(no_mangle)]
pub extern "C" fn replay_calls(file: &[u8], calls: &[u8], out: &mut [u8]) -> usize
    ensures value { result ≡ answer_number (start_of file.now) (calls_of calls.now) out.old }
    ensures out_after { out.new ≡ answer_buffer (start_of file.now) (calls_of calls.now) out.old }
{
    replay::replay_calls(file, calls, out)
}
