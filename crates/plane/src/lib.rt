// The plane of a deck: points, distances and the orders.
//
// A stored coordinate is a u16 that holds the coordinate plus 30,000. Every function here takes all values of its parameters,
// also stored coordinates above 60,000, which no point in range has.
#![tactic(auto)]

pub mod codes;

ghost use Rattle.std.specs.Prelude.{◌≡◌, ◌≤◌, ◌<◌};
ghost use Rattle.std.proofs.Math.IntN.{sub_ℕ};
ghost use Rattle.plane.specs.Coordinate.{half_range, coordinate, signed16, word16};
ghost use Rattle.plane.specs.Point.{dist, gap, lower};
ghost use Rattle.plane.specs.Stored.{point_at};

// One more than the largest number that a stored coordinate can be.
pub const BASE: u64 = 65536;

// The largest coordinate, and without its sign the smallest.
pub const LIMIT: i32 = 30000;

// Places for points in an array. A deck has at most 126 points, and 127 during a round; 128 is the next power of two.
pub const PLACES: usize = 128;

// Returns the distance along one axis.
pub fn apart(a: u16, b: u16) -> u16
    ensures { result ≡ gap (coordinate a) (coordinate b) }
{
    a.abs_diff(b)
}

// Returns the distance of two points, |ax − bx| + |ay − by|.
pub fn distance(ax: u16, ay: u16, bx: u16, by: u16) -> u32
    ensures value { result ≡ dist (point_at ax ay) (point_at bx by) }
    ensures upper_bound { result ≤ 131070 }
{
    u32::from(apart(ax, bx)) + u32::from(apart(ay, by))
}

// Returns whether a is lower than b: by x, then by y.
pub fn is_lower(ax: u16, ay: u16, bx: u16, by: u16) -> bool
    ensures { result ≡ lower (point_at ax ay) (point_at bx by) }
{
    if ax == bx { ay < by } else { ax < bx }
}

// Returns the difference of two numbers of 31 bits.
pub fn difference(a: u64, b: u64) -> i32
    requires { (a < half_range) × (b < half_range) }
    ensures { result ≡ sub_ℕ a b }
{
    // Stays: `as`, since the number fits, as is proved; try_from would hand out an error that never comes.
    a as i32 - b as i32
}

// Returns the 16 bits of a coordinate in two's complement, from its stored form.
pub fn word_of(u: u16) -> usize
    ensures { result ≡ word16 (coordinate u) }
{
    // Stays: `as`, since no From takes a u64 to a usize.
    ((u64::from(u) + BASE - LIMIT as u64) % BASE) as usize
}

// Returns the whole number of two file bytes, the low one first.
pub fn from_bytes(low: u8, high: u8) -> i32
    ensures { result ≡ signed16 low high }
{
    i32::from(i16::from_le_bytes([low, high]))
}

// Returns the whole number of a stored coordinate.
pub fn to_signed(u: u16) -> i32
    ensures { result ≡ coordinate u }
{
    i32::from(u) - LIMIT
}
