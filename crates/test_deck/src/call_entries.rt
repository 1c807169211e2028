// The calls. The deck handed back stands in the words and the kinds where the one handed in stood; the answer is the kind of the reply.
ghost use Rattle.std.specs.Prelude.{◌≡◌};
ghost use Rattle.model.specs.Contents.{empty_contents};
ghost use Rattle.model.specs.Call as call;
ghost use Rattle.deck.specs.Form.{deck_of};
ghost use Rattle.deck.specs.Calls.{called};
ghost use Rattle.test_deck.specs.Words.{deck_in};
ghost use Rattle.test_deck.specs.Parts.{parts_in, Holds};

use super::parts::{parts_of_reply, put_parts};
use super::places::{KIND_PLACES, WORDS};
use super::words::{deck_in, put_deck};
use deck::{Deck, Outcome};

// Puts the empty deck into the words and the kinds. Returns nothing.
#[unsafe(no_mangle)]
pub extern "C" fn entry_empty(words: &mut [u64; WORDS], kinds: &mut [u8; KIND_PLACES])
    ensures { deck_in words.new kinds.new ≡ deck_of empty_contents }
{
    put_deck(Deck::empty(), words, kinds);
}

// Puts an outcome into the caller's arrays. Returns the kind of the reply.
fn put_outcome(
    o: Outcome,
    words: &mut [u64; WORDS],
    kinds: &mut [u8; KIND_PLACES],
    numbers: &mut [u64; 3],
    places: &mut [i32; 4],
) -> u8
    ensures { Holds o words.new kinds.new (parts_in result numbers.new places.new) }
{
    put_deck(o.next, words, kinds);
    put_parts(parts_of_reply(o.reply), numbers, places)
}

// Adds a pin of a kind. Returns the kind of the reply; its numbers and its point stand in the caller's arrays.
// Stays: seven parameters: the C interface.
#[unsafe(no_mangle)]
pub extern "C" fn entry_add(
    x: i32,
    y: i32,
    kind: u32,
    words: &mut [u64; WORDS],
    kinds: &mut [u8; KIND_PLACES],
    numbers: &mut [u64; 3],
    places: &mut [i32; 4],
) -> u8
    ensures { Holds (called (deck_in words.old kinds.old) (call.add (record { x = x; y = y }) kind))
        words.new kinds.new (parts_in result numbers.new places.new) }
{
    let d = deck_in(*words, *kinds);
    put_outcome(d.add(x, y, kind), words, kinds, numbers, places)
}

// Withdraws a pin. Returns as `entry_add` does.
#[unsafe(no_mangle)]
pub extern "C" fn entry_withdraw(
    x: i32,
    y: i32,
    words: &mut [u64; WORDS],
    kinds: &mut [u8; KIND_PLACES],
    numbers: &mut [u64; 3],
    places: &mut [i32; 4],
) -> u8
    ensures { Holds (called (deck_in words.old kinds.old) (call.withdraw (record { x = x; y = y })))
        words.new kinds.new (parts_in result numbers.new places.new) }
{
    let d = deck_in(*words, *kinds);
    put_outcome(d.withdraw(x, y), words, kinds, numbers, places)
}

// One round. Returns as `entry_add` does.
#[unsafe(no_mangle)]
pub extern "C" fn entry_round(
    words: &mut [u64; WORDS],
    kinds: &mut [u8; KIND_PLACES],
    numbers: &mut [u64; 3],
    places: &mut [i32; 4],
) -> u8
    ensures { Holds (called (deck_in words.old kinds.old) call.one_round)
        words.new kinds.new (parts_in result numbers.new places.new) }
{
    let d = deck_in(*words, *kinds);
    put_outcome(d.round(), words, kinds, numbers, places)
}

// Rounds until one is finished. Returns as `entry_add` does.
#[unsafe(no_mangle)]
pub extern "C" fn entry_run_to_end(
    words: &mut [u64; WORDS],
    kinds: &mut [u8; KIND_PLACES],
    numbers: &mut [u64; 3],
    places: &mut [i32; 4],
) -> u8
    ensures { Holds (called (deck_in words.old kinds.old) call.run_to_end)
        words.new kinds.new (parts_in result numbers.new places.new) }
{
    let d = deck_in(*words, *kinds);
    put_outcome(d.run_to_end(), words, kinds, numbers, places)
}

// Sets the tail length. Returns as `entry_add` does.
#[unsafe(no_mangle)]
pub extern "C" fn entry_set_tail(
    tail: u32,
    words: &mut [u64; WORDS],
    kinds: &mut [u8; KIND_PLACES],
    numbers: &mut [u64; 3],
    places: &mut [i32; 4],
) -> u8
    ensures { Holds (called (deck_in words.old kinds.old) (call.set_tail tail))
        words.new kinds.new (parts_in result numbers.new places.new) }
{
    let d = deck_in(*words, *kinds);
    put_outcome(d.set_tail(tail), words, kinds, numbers, places)
}
