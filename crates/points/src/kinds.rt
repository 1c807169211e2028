// The kinds of pins (SPEC 1.7), a byte for each, in the order of the pins: 0 a sensor, 1 a display, 2 a lane controller.
ghost use Rattle.std.specs.Prelude.{◌≡◌, map, ℕ, ◌≤◌, leb, ltb, length};
ghost use Rattle.arrays.specs.Beside.{beside};
ghost use Rattle.arrays.specs.Paste.{Pasted};
ghost use Rattle.arrays.specs.Set.{all};
ghost use Rattle.model.specs.State.{max_pins};
ghost use Rattle.points.specs.Coded.{padded};

use super::MAX_PINS;
use arrays::paste::put_items;
use sorted::index_of;

// The smallest and the largest kind.
// Stays: numbers and no enum, since a deck's kinds are bytes that a caller hands in, and check 11 has to see any byte (`sound`, `is_kind`).
pub const SENSOR: u8 = 0;

pub const LARGEST_KIND: u8 = 2;

// Returns whether all of these are at most `most`.
pub fn all_within(kinds: &[u8], most: u8) -> bool
    ensures { result ≡ all (λ (k : ℕ). leb k most) kinds.now }
{
    kinds.iter().all(|kind| *kind <= most)
}

// Returns these kinds at the front of an array, with zeros behind.
pub fn in_front(kinds: &[u8]) -> [u8; MAX_PINS]
    requires { length kinds.now ≤ max_pins }
    ensures { result ≡ padded max_pins kinds.now }
{
    let mut out = [0u8; MAX_PINS];
    put_items(&mut out, 0, kinds);
    out
}

// Returns the kind beside the pin k, `other` where it is none of the pins.
pub fn kind_or(pins: &[u64], kinds: &[u8], k: u64, other: u8) -> u8
    requires { length pins.now ≡ length kinds.now }
    ensures { result ≡ beside ltb other k pins.now kinds.now }
{
    kinds.get(index_of(pins, k)).copied().unwrap_or(other)
}

// Puts the kinds of the next pins at the front: that of each pin which is still there, and `other` for any other. Returns the place behind them.
pub fn follow(pins: &[u64], kinds: &[u8], next: &[u64], other: u8, out: &mut [u8]) -> usize
    requires { (length pins.now ≡ length kinds.now) × (length next.now ≤ length out.old) }
    ensures { Pasted (map (λ (k : ℕ). beside ltb other k pins.now kinds.now) next.now) out.old out.new 0 result }
{
    for (i, pin) in next.iter().enumerate() {
        out[i] = kind_or(pins, kinds, *pin, other);
    }
    next.len()
}

// Returns the kinds that follow the next pins at the front of an array, with zeros behind.
pub fn next_kinds<const N: usize>(pins: &[u64], kinds: &[u8], next: &[u64], other: u8) -> [u8; N]
    requires { (length pins.now ≡ length kinds.now) × (length next.now ≤ N) }
    ensures { result ≡ padded N (map (λ (k : ℕ). beside ltb other k pins.now kinds.now) next.now) }
{
    let mut out = [0u8; N];
    follow(pins, kinds, next, other, &mut out);
    out
}
