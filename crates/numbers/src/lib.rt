// Whole numbers of 32 bits, as words of a line.
#![tactic(auto)]

ghost use Rattle.std.specs.Prelude.{◌≡◌, ◌≤◌, pos, neg_ℤ};
ghost use Rattle.numbers.specs.Numbers.{largest, smallest, magnitude_of, number_of};

// The largest number of 32 bits with a sign, and the smallest without its sign.
const LARGEST: u64 = 2147483647;

const SMALLEST: u64 = LARGEST + 1;

// The value of one or more digits, if there is no other byte beside them and the value is at most `most`.
fn magnitude(digits: &[u8], most: u64) -> Option<u64>
    requires { most ≤ smallest }
    ensures { result ≡ magnitude_of most digits.now }
{
    if digits.is_empty() {
        return None;
    }
    let mut value: u64 = 0;
    for b in digits {
        if !b.is_ascii_digit() {
            return None;
        }
        value = 10 * value + u64::from(*b - b'0');
        if value > most {
            return None;
        }
    }
    Some(value)
}

// The negative of a magnitude.
fn negated(m: u64) -> i32
    requires { m ≤ smallest }
    ensures { result ≡ neg_ℤ (pos m) }
{
    // Stays: `as`, since the number fits, as is proved; try_from would hand out an error that never comes.
    -(m as i64) as i32
}

// Returns the number that a word stands for, if it stands for one.
pub fn number_of(word: &[u8]) -> Option<i32>
    ensures { result ≡ number_of word.now }
{
    match word {
        [b'-', digits @ ..] => Some(negated(magnitude(digits, SMALLEST)?)),
        // Stays: `as`, since the number fits, as is proved; try_from would hand out an error that never comes.
        digits => Some(magnitude(digits, LARGEST)? as i32),
    }
}
