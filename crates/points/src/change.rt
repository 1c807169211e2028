// Points that join and leave.
ghost use Rattle.std.specs.Prelude.{◌≡◌, ◌+◌, ◌<◌, T, take};
ghost use mathlib.Core.List.{Memᴰ};
ghost use Rattle.plane.specs.Code.{point_of, is_code};
ghost use Rattle.model.specs.State as state;
ghost use Rattle.model.specs.Round.{with_steiner};
ghost use Rattle.points.specs.Coded.{Arranged, state_of, max_points};

use super::Points;
use sorted::{out, put};

// Returns the points with a pin of code k, where no Steiner point stands then.
pub fn with_pin(mut q: Points, k: u64) -> Points
    requires arranged { Arranged q }
    requires t { T (is_code k) }
    requires npins_lt_max_pins { (q.npins < state.max_pins) × (q.npins + q.nsteiner < max_points) }
    ensures { Arranged result × (state_of result ≡ state.with_pin (point_of k) (state_of q)) }
{
    let npins = q.npins;
    let nsteiner = q.nsteiner;
    q.npins = put(&mut q.pins, npins, k);
    q.nsteiner = out(&mut q.steiner, nsteiner, k);
    q
}

// Returns the points without the pin of code k.
pub fn without_pin(mut q: Points, k: u64) -> Points
    requires arranged { Arranged q }
    requires t { T (is_code k) }
    ensures { Arranged result × (state_of result ≡ state.without_pin (point_of k) (state_of q)) }
{
    let npins = q.npins;
    q.npins = out(&mut q.pins, npins, k);
    q
}

// Returns the points with a Steiner point of code k, where no pin stands.
pub fn with_steiner(mut q: Points, k: u64) -> Points
    requires arranged { Arranged q }
    requires t { T (is_code k) }
    requires nsteiner_bound { q.npins + q.nsteiner < max_points }
    requires fact { Memᴰ k (take q.npins q.pins) → ⊥ }
    ensures { Arranged result × (state_of result ≡ with_steiner (point_of k) (state_of q)) }
{
    let nsteiner = q.nsteiner;
    q.nsteiner = put(&mut q.steiner, nsteiner, k);
    q
}

// Returns the points without the Steiner point of code k.
pub fn without_steiner(mut q: Points, k: u64) -> Points
    requires arranged { Arranged q }
    requires t { T (is_code k) }
    ensures { Arranged result × (state_of result ≡ state.without (point_of k) (state_of q)) }
{
    let nsteiner = q.nsteiner;
    q.nsteiner = out(&mut q.steiner, nsteiner, k);
    q
}
