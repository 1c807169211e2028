// The octants: which of eight the difference of two points is in.
#![tactic(auto)]

ghost use Rattle.std.specs.Prelude.{◌≡◌, ◌+◌, ◌≤◌, ◌-ℤ◌};
ghost use Rattle.plane.specs.Coordinate.{coordinate};
ghost use Rattle.octants.specs.Octant as table;
ghost use Rattle.plane.specs.Stored.{one};

use plane::is_lower;

// How many octants there are, and what stands for the octant of no difference.
pub const OCTANTS: usize = 8;

// Stays: a number and no Option, since the table of SPEC 3.3 and the entry for C have 8 for no difference (`table.octant`).
pub const NO_OCTANT: u8 = OCTANTS as u8;

// Returns the octant of a difference (SPEC 3.1), 0 to 7, and NO_OCTANT for no difference. A sum is taken only of numbers with unlike signs, so that it fits.
pub fn octant(dx: i32, dy: i32) -> u8
    ensures { result ≡ table.octant dx dy }
{
    if 0 < dx {
        if 0 <= dy {
            if dy < dx { 0 } else { 1 }
        } else {
            if dx + dy < 0 { 6 } else { 7 }
        }
    } else if dx < 0 {
        if dy <= 0 {
            if dx < dy { 4 } else { 5 }
        } else {
            if 0 < dx + dy { 2 } else { 3 }
        }
    } else if 0 < dy {
        2
    } else if dy < 0 {
        6
    } else {
        NO_OCTANT
    }
}

// How many of three tests pass.
fn passes(p: bool, q: bool, s: bool) -> u8
    ensures value { result ≡ one p + one q + one s }
    ensures upper_bound { result ≤ 3 }
{
    u8::from(p) + u8::from(q) + u8::from(s)
}

// Returns the octant of b seen from a, NO_OCTANT where they are one point. A half plane has three rays inside it where an octant starts,
// and b's octant in it is the count of those that b has reached. The first half plane, from the ray to the right, is where b comes after a
// by y and then by x; the second is where it comes before.
pub fn octant_between(ax: u16, ay: u16, bx: u16, by: u16) -> u8
    ensures value { result ≡ table.octant (coordinate bx -ℤ coordinate ax) (coordinate by -ℤ coordinate ay) }
    ensures upper_bound { result ≤ table.octant_count }
{
    let x_more = u32::from(bx) + u32::from(ay);
    let y_more = u32::from(by) + u32::from(ax);
    let far = u32::from(bx) + u32::from(by);
    let near = u32::from(ax) + u32::from(ay);
    let above = passes(x_more <= y_more, bx <= ax, far <= near);
    let below = passes(y_more <= x_more, ax <= bx, near <= far);
    if is_lower(ay, ax, by, bx) {
        above
    } else if is_lower(by, bx, ay, ax) {
        below + 4
    } else {
        NO_OCTANT
    }
}
