// The sweep on a working form (SPEC 4.1; the field's word is prune).
#![tactic(auto)]

pub mod change;

ghost use Rattle.std.specs.Prelude.{◌≡◌};
ghost use Rattle.model.specs.State as state;
ghost use Rattle.points.specs.Coded as coded;
ghost use Rattle.working.specs.InOrder.{state_of};
ghost use Rattle.prune.specs.Weak.{first_weak, weak_at};

use points::Points;
use working::{Working, arrange};

// Where the first of the Steiner points stands that has at most two edges, or how many they are if none has.
// Stays: how many there are, and no Option, where none has so few, as `first_weak` and `weak_at` of the definitions say.
fn first_weak(codes: &[u64], keys: &[u64], steiner: &[u64]) -> usize
    ensures { result ≡ first_weak codes.now keys.now steiner.now }
{
    for (j, k) in steiner.iter().enumerate() {
        if tree::list::degree_of(keys, sorted::index_of(codes, *k)) <= 2 {
            return j;
        }
    }
    steiner.len()
}

// Returns where the lowest Steiner point stands that has at most two edges, or how many Steiner points there are if none has.
pub fn lowest_weak(w: Working) -> usize
    ensures { result ≡ weak_at w }
{
    first_weak(
        &w.codes[..w.npoints],
        &w.keys[..w.nkeys],
        &w.points.steiner[..w.points.nsteiner],
    )
}

// Returns the working form that a sweep leaves: as long as there is a Steiner point of two edges or fewer, the lowest of them goes and the
// tree is built again.
pub fn prune(q: Points) -> Working
    requires { coded.Arranged q }
    ensures { state_of result ≡ state.prune (coded.state_of q) }
{
    let mut w = arrange(q);
    let mut j = lowest_weak(w);
    while j < w.points.nsteiner {
        let steiner = w.points.steiner;
        let k = steiner[j];
        w = arrange(points::change::without_steiner(w.points, k));
        j = lowest_weak(w);
    }
    w
}
