// A deck as an array of words, part behind part (places.rt), and the kinds of its pins. Any words and any bytes are those of some deck, sound or
// not.
ghost use Rattle.std.specs.Prelude.{◌≡◌};
ghost use Rattle.test_deck.specs.Words.{deck_in, words_of};

use super::places::{
    END_PLACES, ENDS, KIND_PLACES, PIN_COUNT, PIN_PLACES, PINS, STEINER, STEINER_COUNT,
    STEINER_PLACES, TAIL, WORDS,
};
use arrays::paste::put_items;
use deck::Deck;
use points::Points;

// Returns the deck that stands in the words and the kinds.
pub fn deck_in(words: [u64; WORDS], kinds: [u8; KIND_PLACES]) -> Deck
    ensures { result ≡ deck_in words kinds }
{
    let mut pins = [0u64; PIN_PLACES];
    let mut steiner = [0u64; STEINER_PLACES];
    let mut ends = [0u64; END_PLACES];
    pins.copy_from_slice(&words[PINS..PIN_COUNT]);
    steiner.copy_from_slice(&words[STEINER..STEINER_COUNT]);
    ends.copy_from_slice(&words[ENDS..WORDS]);
    // Stays: `as`, since no From takes a u64 to a usize.
    let npins = words[PIN_COUNT] as usize;
    let nsteiner = words[STEINER_COUNT] as usize;
    let points = Points {
        pins,
        npins,
        steiner,
        nsteiner,
    };
    Deck {
        points,
        kinds,
        tail: words[TAIL],
        ends,
    }
}

// Puts a deck into the words and the kinds. Returns nothing.
pub fn put_deck(d: Deck, words: &mut [u64; WORDS], kinds: &mut [u8; KIND_PLACES])
    ensures words_after { words.new ≡ words_of d }
    ensures kinds_after { deck_in words.new kinds.new ≡ d }
{
    put_items(words, PINS, &d.points.pins);
    // Stays: `as`, since no From takes a usize to a u64.
    words[PIN_COUNT] = d.points.npins as u64;
    put_items(words, STEINER, &d.points.steiner);
    // Stays: `as`, since no From takes a usize to a u64.
    words[STEINER_COUNT] = d.points.nsteiner as u64;
    words[TAIL] = d.tail;
    put_items(words, ENDS, &d.ends);
    kinds.copy_from_slice(&d.kinds);
}
