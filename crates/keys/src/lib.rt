// An edge between two numbered points as one number, its key: (length * 128 + low) * 128 + high, where low and high are the numbers of
// its two points, low the smaller. One comparison of keys compares lengths, then low, then high.
#![tactic(auto)]

ghost use Rattle.std.specs.Prelude.{◌≡◌, ◌≤◌, ◌<◌};
ghost use Rattle.keys.specs.Keys as spec;

use plane::PLACES;

// The number of a point is less than this, a factor of keys; what stands above the two numbers of a key.
// Stays: `as`, since a constant calls no From.
pub const FACTOR: u64 = PLACES as u64;

const PAIRS: u64 = FACTOR * FACTOR;

// Larger than every key, since the longest edge has 17 bits and two numbers have 14.
// Stays: a number and no Option, since the least of keys is taken in the search for the nearest points (`octant_keys` holds it).
pub const NO_KEY: u64 = 4294967295;

// Returns the key of an edge of length d between the points i and j, i the smaller.
pub fn key(d: u32, i: usize, j: usize) -> u64
    requires { (d ≤ spec.longest_edge) × (i < spec.places) × (j < spec.places) }
    ensures { result ≡ spec.key d i j }
{
    // Stays: `as`, since no From takes a usize to a u64.
    (u64::from(d) * FACTOR + i as u64) * FACTOR + j as u64
}

// Returns the smaller of the two numbers of a key.
pub fn low(k: u64) -> usize
    ensures { result ≡ spec.low k }
{
    // Stays: `as`, since no From takes a u64 to a usize.
    (k / FACTOR % FACTOR) as usize
}

// Returns the larger of the two numbers of a key.
pub fn high(k: u64) -> usize
    ensures { result ≡ spec.high k }
{
    // Stays: `as`, since no From takes a u64 to a usize.
    (k % FACTOR) as usize
}

// Returns the length of a key's edge.
pub fn weight(k: u64) -> u64
    ensures { result ≡ spec.weight k }
{
    k / PAIRS
}

// Returns the two numbers of a key as one, which compares by low and then high: the listing order.
pub fn ends(k: u64) -> u64
    ensures { result ≡ spec.ends_of k }
{
    k % PAIRS
}
