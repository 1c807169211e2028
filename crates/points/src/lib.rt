// The points of a deck: its pins and its Steiner points (taps) as codes (SPEC 5.1).
#![tactic(auto)]

pub mod change;
pub mod check;
pub mod kinds;

ghost use Rattle.std.specs.Prelude.{◌≡◌};
ghost use Rattle.model.specs.State as state;
ghost use Rattle.points.specs.Coded.{coded};

// The most pins of a deck.
pub const MAX_PINS: usize = 64;

// The most Steiner points between calls: two less than pins, since each has three edges or more.
pub const MAX_STEINER: usize = MAX_PINS - 2;

// The most points held at a time, during a round: pins, Steiner points, and the one that joins.
pub const MAX_POINTS: usize = MAX_PINS + MAX_STEINER + 1;

// Places for all points, one more than are held.
pub const PLACES: usize = plane::PLACES;

// Codes (see the crate plane) rise in each array, no code stands in both, and unused places hold zeros.
// Stays: no invariant, since the points of a deck are handed in by a caller, arranged or not (`sound`); so `Arranged` is asked for where it is needed.
#[derive(Clone, Copy)]
pub struct Points {
    pub pins: [u64; MAX_PINS],
    pub npins: usize,
    pub steiner: [u64; PLACES],
    pub nsteiner: usize,
}

impl Points {
    // Returns the points of an empty deck.
    pub fn empty() -> Points
        ensures { result ≡ coded state.empty }
    {
        Points {
            pins: [0u64; MAX_PINS],
            npins: 0,
            steiner: [0u64; PLACES],
            nsteiner: 0,
        }
    }
}
