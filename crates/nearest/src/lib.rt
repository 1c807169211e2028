// The nearest points of a new one, by octants.
#![tactic(auto)]

ghost use Rattle.std.specs.Prelude.{◌≡◌, ◌≤◌, ◌<◌, length};
ghost use Rattle.plane.specs.Stored.{point_at};
ghost use Rattle.keys.specs.Held.{held};
ghost use Rattle.keys.specs.Keys.{places, octant_keys};

use keys::{NO_KEY, key};
use octants::OCTANTS;

// Returns for each octant of the point at (x, y), whose number is that of the points, the least key to one of the points, or NO_KEY.
pub fn nearest(xs: &[u16], ys: &[u16], x: u16, y: u16) -> [u64; OCTANTS]
    requires { (length xs.now ≤ length ys.now) × (length xs.now < places) }
    ensures { result ≡ octant_keys (held xs.now ys.now) (point_at x y) (length xs.now) }
{
    let n = xs.len();
    let mut best = [NO_KEY; OCTANTS];
    for (j, u) in xs.iter().enumerate() {
        let v = ys[j];
        let o = usize::from(octants::octant_between(x, y, *u, v));
        let k = key(plane::distance(*u, v, x, y), j, n);
        if o < OCTANTS {
            best[o] = k.min(best[o]);
        }
    }
    best
}
