// Bytes as pairs of hexadecimal digits.
ghost use Rattle.std.specs.Prelude.{◌≡◌, true, ◌≤◌, ◌<◌, length, take, MatchOption};
ghost use Rattle.arrays.specs.Paste.{Pasted};
ghost use Rattle.words.specs.Hex.{digit_of, is_hex, pairs};

// The value of a hexadecimal digit, if a byte is one.
#[tactic(auto, using(std::proofs::lemmas::Bool::Decides::nat_tests), unfolding(crate::specs::Hex::digit_of))]
fn digit(b: u8) -> Option<u8>
    ensures { MatchOption result (digit_of b ≡ 16) (λ d. (d ≡ digit_of b) × (d < 16)) }
{
    match b {
        b'0'..=b'9' => Some(b - b'0'),
        b'A'..=b'F' => Some(b - b'A' + 10),
        b'a'..=b'f' => Some(b - b'a' + 10),
        _ => None,
    }
}

// Returns whether a word is pairs of hexadecimal digits.
pub fn is_hex(word: &[u8]) -> bool
    ensures { result ≡ is_hex word.now }
{
    word.len() % 2 == 0 && word.iter().all(|b| b.is_ascii_hexdigit())
}

// Writes the bytes of pairs of hexadecimal digits to the front of `out`, as many as it holds, and returns how many.
pub fn decode(word: &[u8], out: &mut [u8]) -> usize
    requires { is_hex word.now ≡ true }
    ensures { Pasted (take (length out.old) (pairs word.now)) out.old out.new 0 result }
{
    let count = out.len().min(word.len() / 2);
    for k in 0..count {
        let high = digit(word[2 * k]).unwrap();
        let low = digit(word[2 * k + 1]).unwrap();
        out[k] = 16 * high + low;
    }
    count
}
