// The numbers of the words of a text, up to five: the arguments of a call.
#![tactic(auto)]

ghost use Rattle.std.specs.Prelude.{◌≡◌};
ghost use Rattle.words.specs.Words.{words_of};
ghost use Rattle.arguments.specs.Arguments.{appended, arguments_of};

use numbers::number_of;
use words::next;

// The numbers that words stand for, none to five of them.
#[derive(Clone, Copy)]
pub enum Arguments {
    Zero,
    One(i32),
    Two(i32, i32),
    Three(i32, i32, i32),
    Four(i32, i32, i32, i32),
    Five(i32, i32, i32, i32, i32),
}

// One more number, if there are fewer than five.
#[tactic(auto, unfolding(crate::specs::Arguments::appended))]
fn append(a: Arguments, z: i32) -> Option<Arguments>
    ensures { result ≡ appended a z }
{
    match a {
        Arguments::Zero => Some(Arguments::One(z)),
        Arguments::One(i) => Some(Arguments::Two(i, z)),
        Arguments::Two(i, j) => Some(Arguments::Three(i, j, z)),
        Arguments::Three(i, j, k) => Some(Arguments::Four(i, j, k, z)),
        Arguments::Four(i, j, k, l) => Some(Arguments::Five(i, j, k, l, z)),
        Arguments::Five(..) => None,
    }
}

// Returns the numbers of the words of a text, if each word stands for a number and there are five words at most.
pub fn arguments_of(words: &[u8]) -> Option<Arguments>
    ensures { result ≡ arguments_of (words_of words.now) }
{
    let mut numbers = Arguments::Zero;
    let mut rest = words;
    while let Some((word, behind)) = next(rest) {
        numbers = append(numbers, number_of(word)?)?;
        rest = behind;
    }
    Some(numbers)
}
