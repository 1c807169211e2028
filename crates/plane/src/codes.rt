// Points as single numbers: a point in range is one code, and the lower of two points has the smaller code.
ghost use Rattle.std.specs.Prelude.{◌≡◌, ◌*◌, ◌<◌, T};
ghost use Rattle.plane.specs.Point.{coordinate_in_range};
ghost use Rattle.plane.specs.Coordinate.{base, stored_of};
ghost use Rattle.plane.specs.Code.{packed, x_of, y_of, is_code, located};

use super::{BASE, LIMIT};

// The stored form of the largest coordinate in range.
const STORED_LIMIT: u64 = 60000;

// The smallest coordinate in range.
const LOWEST: i32 = -LIMIT;

// Returns two stored coordinates as one number.
pub fn pack(x: u16, y: u16) -> u64
    ensures { (result ≡ packed x y) × (result < base * base) }
{
    u64::from(x) * BASE + u64::from(y)
}

// Returns the stored x in a number.
pub fn x_of(k: u64) -> u16
    ensures { result ≡ x_of k }
{
    // Stays: `as`, since the number fits, as is proved; try_from would hand out an error that never comes.
    (k / BASE % BASE) as u16
}

// Returns the stored y in a number.
pub fn y_of(k: u64) -> u16
    ensures { result ≡ y_of k }
{
    // Stays: `as`, since the number fits, as is proved; try_from would hand out an error that never comes.
    (k % BASE) as u16
}

// Returns whether a number is the code of a point in range.
// Stays: a code is a number and no type of its own with `is_code` as its invariant, since sets are arrays of such numbers and each use would unpack it.
pub fn is_code(k: u64) -> bool
    ensures { result ≡ is_code k }
{
    (k / BASE <= STORED_LIMIT) & (k % BASE <= STORED_LIMIT)
}

// Whether a coordinate is in range.
fn is_in_range(z: i32) -> bool
    ensures { result ≡ coordinate_in_range z }
{
    (LOWEST <= z) & (z <= LIMIT)
}

// The stored form of a coordinate in range.
fn stored(z: i32) -> u16
    requires { T (coordinate_in_range z) }
    ensures { result ≡ stored_of z }
{
    // Stays: `as`, since the number fits, as is proved; try_from would hand out an error that never comes.
    (z + LIMIT) as u16
}

// Returns the code of a point, or none where it is out of range.
pub fn locate(x: i32, y: i32) -> Option<u64>
    ensures { result ≡ located (record { x = x; y = y }) }
{
    if is_in_range(x) & is_in_range(y) {
        Some(pack(stored(x), stored(y)))
    } else {
        None
    }
}
