// The working form of a deck: its points, all of them in one array with their coordinates, and the keys of their tree.
#![tactic(auto)]

pub mod deck;

ghost use Rattle.std.specs.Prelude.{◌≡◌, ℕ, ◌≤◌, ◌<◌, length, get_or};
ghost use Rattle.plane.specs.Code.{point_of};
ghost use Rattle.keys.specs.Held.{held};
ghost use Rattle.points.specs.Coded.{Arranged};
ghost use Rattle.working.specs.Held.{HeldInOrder};

use octants::OCTANTS;
use points::{PLACES, Points};

// Room for the keys of a tree while it is built: one for each place, and one for each octant of the point that joins.
const KEY_ROOM: usize = PLACES + OCTANTS;

// Stays: in order by its type, but valid (`Valid`) only where it is asked for, since a sweep goes through forms that are not.
#[derive(Clone, Copy)]
pub struct Working {
    pub points: Points,
    pub codes: [u64; PLACES],
    pub xs: [u16; PLACES],
    pub ys: [u16; PLACES],
    pub npoints: usize,
    pub keys: [u64; KEY_ROOM],
    pub nkeys: usize,
    pub ghost in_order: { HeldInOrder points codes xs ys npoints keys nkeys },
}

// The points of the codes, by their stored x and y.
fn unpack(codes: &[u64], xs: &mut [u16], ys: &mut [u16])
    requires { (length codes.now ≤ length xs.old) × (length codes.now ≤ length ys.old) }
    ensures { (i : ℕ) → i < length codes.now → held xs.new ys.new i ≡ point_of (get_or codes.now i 0) }
{
    for (i, k) in codes.iter().enumerate() {
        xs[i] = plane::codes::x_of(*k);
        ys[i] = plane::codes::y_of(*k);
    }
}

// Returns the working form of points: all of them merged, and the tree built.
pub fn arrange(q: Points) -> Working
    requires { Arranged q }
    ensures { result.points ≡ q }
{
    let mut codes = [0u64; PLACES];
    let npoints = sorted::union(&q.pins[..q.npins], &q.steiner[..q.nsteiner], &mut codes);
    let mut xs = [0u16; PLACES];
    let mut ys = [0u16; PLACES];
    unpack(&codes[..npoints], &mut xs, &mut ys);
    let mut keys = [0u64; KEY_ROOM];
    let nkeys = tree::build::build(&xs[..npoints], &ys[..npoints], &mut keys);
    Working {
        points: q,
        codes,
        xs,
        ys,
        npoints,
        keys,
        nkeys,
    }
}
