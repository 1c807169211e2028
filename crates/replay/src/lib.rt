// Lists of calls in bytes, for C: made on the deck of a file, which is then written.
#![tactic(auto)]

mod list;

ghost use Rattle.std.specs.Prelude.{◌≡◌, MatchResult};
ghost use Rattle.model.specs.File.{refusal};
ghost use Rattle.deckfile.specs.Reading.{read_outcome, accepted_deck};
ghost use Rattle.deckfile.specs.Answer.{answer_number, answer_buffer};
ghost use Rattle.replay.specs.Calls.{start_of, calls_of};

use deck::Deck;
use deckfile::answer::number_of;
use deckfile::take_file;
use list::call_all;

// The deck of a file, or an empty one where there are no bytes; or the number of the file's refusal.
fn start(file: &[u8]) -> Result<Deck, u8>
    ensures { MatchResult result (λ d. read_outcome (start_of file.now) ≡ accepted_deck d) (λ n. start_of file.now ≡ refusal n) }
{
    if file.is_empty() {
        return Ok(Deck::empty());
    }
    let working = take_file(file)?;
    Ok(Deck::from(working))
}

// Makes a list of calls, twelve bytes each, on the deck of a file, or on an empty deck where `file` has no bytes, and writes the deck that
// they leave into `out` (SPEC 10.2). Returns how many bytes were written, which are 30 at least, or the number of the refusal.
// Stays: one number for a length and for a refusal, which is the number that C gets (SPEC 10.2).
pub fn replay_calls(file: &[u8], calls: &[u8], out: &mut [u8]) -> usize
    ensures value { result ≡ answer_number (start_of file.now) (calls_of calls.now) out.old }
    ensures out_after { out.new ≡ answer_buffer (start_of file.now) (calls_of calls.now) out.old }
{
    match start(file) {
        Ok(deck) => number_of(deckfile::write(call_all(deck, calls), out)),
        Err(n) => usize::from(n),
    }
}
