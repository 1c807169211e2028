// The answer of an entry for other programs: one number.
ghost use Rattle.std.specs.Prelude.{◌≡◌};
ghost use Rattle.deckfile.specs.Answer.{written_number};

// Stays: one number for both, since the C interface returns one (SPEC 10.1); a length is 30 at least, and a refusal less.
// Returns the length written, or the number of the refusal.
pub fn number_of(w: Result<usize, u8>) -> usize
    ensures { result ≡ written_number w }
{
    match w {
        Ok(n) => n,
        Err(n) => usize::from(n),
    }
}
