// A list of calls in bytes, made on a deck one after the other.
ghost use Rattle.std.specs.Prelude.{◌≡◌, ◌+◌, ◌≤◌, ◌<◌, length};
ghost use Rattle.deck.specs.Session.{deck_after};
ghost use Rattle.replay.specs.Calls as bytes;

use arrays::number::number4;
use deck::Deck;

// The bytes of a call.
const CALL_SIZE: usize = 12;

// The whole number of 32 bits in two's complement.
fn signed32(n: usize) -> i32
    requires { n < 4294967296 }
    ensures { result ≡ bytes.signed32 n }
{
    // Stays: `as`, since the number fits, as is proved; try_from would hand out an error that never comes.
    (n as u32).cast_signed()
}

// The deck after the call of this number, with a kind and two numbers of 32 bits: a place, or a tail length in the first. A number that is not
// known is no call.
// Stays: a match on the number, since the calls are bytes that a caller hands in (SPEC 10.2; `call_of`).
fn call(d: Deck, number: u8, kind: u8, first: usize, second: usize) -> Deck
    requires { (first < 4294967296) × (second < 4294967296) }
    ensures { result ≡ deck_after d (bytes.call_of number kind first second) }
{
    match number {
        0 => d
            .add(signed32(first), signed32(second), u32::from(kind))
            .next,
        1 => d.withdraw(signed32(first), signed32(second)).next,
        2 => d.round().next,
        3 => d.run_to_end().next,
        // Stays: `as`, since the number fits, as is proved; try_from would hand out an error that never comes.
        4 => d.set_tail(first as u32).next,
        _ => d,
    }
}

// The deck after the call in the twelve bytes from `at` on. The two bytes after its number and its kind are not looked at.
fn call_at(d: Deck, calls: &[u8], at: usize) -> Deck
    requires { at + 12 ≤ length calls.now }
    ensures { result ≡ deck_after d (bytes.call_at calls.now at) }
{
    let first = number4(calls, at + 4);
    let second = number4(calls, at + 8);
    call(d, calls[at], calls[at + 1], first, second)
}

// Returns the deck after all calls, each made on the deck of the one before. Fewer than twelve bytes at the end are no call.
pub fn call_all(d: Deck, calls: &[u8]) -> Deck
    ensures { result ≡ deck_after d (bytes.calls_of calls.now) }
{
    let mut next = d;
    for i in 0..calls.len() / CALL_SIZE {
        next = call_at(next, calls, i * CALL_SIZE);
    }
    next
}
