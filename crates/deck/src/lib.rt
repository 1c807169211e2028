// The deck (SPEC 5.1): its pins with their kinds, its Steiner points (taps), its tail length and the edges of its tree (runs), with the calls and
// questions on it.
#![tactic(auto)]

mod answers;
pub mod changes;
pub mod check;

ghost use Rattle.std.specs.Prelude.{◌≡◌};
ghost use Rattle.model.specs.Contents.{empty_contents};
ghost use Rattle.deck.specs.Form.{deck_of};

use calls::Reply;
use points::{MAX_PINS, PLACES, Points};

// The kinds stand in the order of the pins. An edge is the numbers of its two points in one, 128 times the first and the second, rising: the
// listing order. Unused places hold zeros.
#[derive(Clone, Copy)]
pub struct Deck {
    pub points: Points,
    pub kinds: [u8; MAX_PINS],
    pub tail: u64,
    pub ends: [u64; PLACES],
}

// What a call hands back: the deck that follows, and the reply.
#[derive(Clone, Copy)]
pub struct Outcome {
    pub next: Deck,
    pub reply: Reply,
}

impl Deck {
    // Returns a deck with no pin, no Steiner point and no tails.
    pub fn empty() -> Deck
        ensures { result ≡ deck_of empty_contents }
    {
        Deck {
            points: Points::empty(),
            kinds: [0u8; MAX_PINS],
            tail: 0,
            ends: [0u64; PLACES],
        }
    }
}
