// The questions. The deck asked stands in the words and the kinds and stays as it is; the answer is its kind.
ghost use Rattle.std.specs.Prelude.{◌≡◌};
ghost use Rattle.deck.specs.Form.{sound};
ghost use Rattle.deck.specs.Questions.{asked};
ghost use Rattle.questions.specs.Answers.{of_length, of_counts, of_edge, of_degree, of_kinds, of_column};
ghost use Rattle.test_deck.specs.Words.{deck_in};
ghost use Rattle.test_deck.specs.Parts.{parts_in, parts_of_answer};

use super::parts::{parts_of_answer, put_parts};
use super::places::{KIND_PLACES, WORDS};
use super::words::deck_in;

// Returns whether the deck is sound.
#[unsafe(no_mangle)]
pub extern "C" fn entry_is_valid(words: &[u64; WORDS], kinds: &[u8; KIND_PLACES]) -> bool
    ensures { result ≡ sound (deck_in words.now kinds.now) }
{
    let d = deck_in(*words, *kinds);
    d.is_valid()
}

// Asks for the length of the deck. Returns the kind of the answer; its numbers and points stand in the caller's arrays.
#[unsafe(no_mangle)]
pub extern "C" fn entry_length(
    words: &[u64; WORDS],
    kinds: &[u8; KIND_PLACES],
    numbers: &mut [u64; 3],
    places: &mut [i32; 4],
) -> u8
    ensures { parts_in result numbers.new places.new
        ≡ parts_of_answer (asked (deck_in words.now kinds.now) of_length) }
{
    let d = deck_in(*words, *kinds);
    put_parts(parts_of_answer(d.length()), numbers, places)
}

// Asks for the numbers of pins, Steiner points and edges. Returns as `entry_length` does.
#[unsafe(no_mangle)]
pub extern "C" fn entry_counts(
    words: &[u64; WORDS],
    kinds: &[u8; KIND_PLACES],
    numbers: &mut [u64; 3],
    places: &mut [i32; 4],
) -> u8
    ensures { parts_in result numbers.new places.new
        ≡ parts_of_answer (asked (deck_in words.now kinds.now) of_counts) }
{
    let d = deck_in(*words, *kinds);
    put_parts(parts_of_answer(d.counts()), numbers, places)
}

// Asks for the edge at a place of the listing order. Returns as `entry_length` does.
#[unsafe(no_mangle)]
pub extern "C" fn entry_edge_at(
    i: usize,
    words: &[u64; WORDS],
    kinds: &[u8; KIND_PLACES],
    numbers: &mut [u64; 3],
    places: &mut [i32; 4],
) -> u8
    ensures { parts_in result numbers.new places.new
        ≡ parts_of_answer (asked (deck_in words.now kinds.now) (of_edge i)) }
{
    let d = deck_in(*words, *kinds);
    put_parts(parts_of_answer(d.edge_at(i)), numbers, places)
}

// Asks how many edges a point has. Returns as `entry_length` does.
#[unsafe(no_mangle)]
pub extern "C" fn entry_degree_at(
    x: i32,
    y: i32,
    words: &[u64; WORDS],
    kinds: &[u8; KIND_PLACES],
    numbers: &mut [u64; 3],
    places: &mut [i32; 4],
) -> u8
    ensures { parts_in result numbers.new places.new
        ≡ parts_of_answer (asked (deck_in words.now kinds.now) (of_degree (record { x = x; y = y }))) }
{
    let d = deck_in(*words, *kinds);
    put_parts(parts_of_answer(d.degree_at(x, y)), numbers, places)
}

// Asks how long the edges of each kind of device are together. Returns as `entry_length` does.
#[unsafe(no_mangle)]
pub extern "C" fn entry_kind_lengths(
    words: &[u64; WORDS],
    kinds: &[u8; KIND_PLACES],
    numbers: &mut [u64; 3],
    places: &mut [i32; 4],
) -> u8
    ensures { parts_in result numbers.new places.new
        ≡ parts_of_answer (asked (deck_in words.now kinds.now) of_kinds) }
{
    let d = deck_in(*words, *kinds);
    put_parts(parts_of_answer(d.kind_lengths()), numbers, places)
}

// Asks for the candidate of a column. Returns as `entry_length` does.
#[unsafe(no_mangle)]
pub extern "C" fn entry_column(
    x: i32,
    words: &[u64; WORDS],
    kinds: &[u8; KIND_PLACES],
    numbers: &mut [u64; 3],
    places: &mut [i32; 4],
) -> u8
    ensures { parts_in result numbers.new places.new
        ≡ parts_of_answer (asked (deck_in words.now kinds.now) (of_column x)) }
{
    let d = deck_in(*words, *kinds);
    put_parts(parts_of_answer(d.column(x)), numbers, places)
}
