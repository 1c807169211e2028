// What the calls do to a working form: a pin joins or leaves, a Steiner point joins, and a sweep follows.
ghost use Rattle.std.specs.Prelude.{◌≡◌, ◌+◌, ◌<◌, T, take};
ghost use mathlib.Core.List.{Memᴰ};
ghost use Rattle.model.specs.State as state;
ghost use Rattle.model.specs.Round.{with_steiner};
ghost use Rattle.plane.specs.Code.{point_of, is_code};
ghost use Rattle.points.specs.Coded.{max_points};
ghost use Rattle.working.specs.InOrder.{state_of};

use super::prune;
use working::Working;

// Returns the working form with a pin of code k, where no Steiner point stands then, after the sweep.
pub fn insert(w: Working, k: u64) -> Working
    requires t { T (is_code k) }
    requires npins_lt_max_pins { (w.points.npins < state.max_pins) × (w.points.npins + w.points.nsteiner < max_points) }
    ensures { state_of result ≡ state.insert (point_of k) (state_of w) }
{
    prune(points::change::with_pin(w.points, k))
}

// Returns the working form without the pin of code k, after the sweep.
pub fn remove(w: Working, k: u64) -> Working
    requires t { T (is_code k) }
    ensures { state_of result ≡ state.remove (point_of k) (state_of w) }
{
    prune(points::change::without_pin(w.points, k))
}

// Returns the working form with a Steiner point of code k, where no point is held, after the sweep.
pub fn with_steiner(w: Working, k: u64) -> Working
    requires t { T (is_code k) }
    requires nsteiner_bound { w.points.npins + w.points.nsteiner < max_points }
    requires fact { Memᴰ k (take w.points.npins w.points.pins) → ⊥ }
    ensures { state_of result ≡ state.prune (with_steiner (point_of k) (state_of w)) }
{
    prune(points::change::with_steiner(w.points, k))
}
