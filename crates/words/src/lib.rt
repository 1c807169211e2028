// The words of a line, one after the other, and bytes in hexadecimal.
#![tactic(auto)]

pub mod hex;

ghost use Rattle.std.specs.Prelude.{◌≡◌, [], MatchOption};
ghost use Rattle.words.specs.Words.{words_of, letters, Next};

// How many bytes of a line stand before its first white space.
fn word_length(line: &[u8]) -> usize
    ensures { result ≡ letters line.now }
{
    line.iter()
        .position(|b| b.is_ascii_whitespace())
        .unwrap_or(line.len())
}

// Returns the first word of a line and what stands behind it, if there is a word.
pub fn next(line: &[u8]) -> Option<(&[u8], &[u8])>
    ensures { MatchOption result (words_of line.now ≡ []) (λ r. Next line.now r.0.now r.1.now) }
{
    let from_word = line.trim_ascii_start();
    match word_length(from_word) {
        0 => None,
        length => Some(from_word.split_at(length)),
    }
}
