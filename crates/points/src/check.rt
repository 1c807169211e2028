// Whether arrays are arranged as the points of a deck are.
ghost use Rattle.std.specs.Prelude.{◌≡◌, ◌≤◌, length, take};
ghost use Rattle.arrays.specs.Set.{all};
ghost use Rattle.plane.specs.Code.{is_code};
ghost use Rattle.points.specs.Coded.{ordered, arranged};

use super::{MAX_PINS, MAX_POINTS, Points};

// Whether the numbers are all codes of points in range.
fn are_codes(a: &[u64]) -> bool
    ensures { result ≡ all is_code a.now }
{
    a.iter().all(|k| plane::codes::is_code(*k))
}

// Whether the first n places hold a set of codes and the others zeros.
// Stays: an array and how many of its places count, since the places behind them have to hold zeros.
fn is_ordered(a: &[u64], n: usize) -> bool
    requires { n ≤ length a.now }
    ensures { result ≡ ordered a.now n }
{
    are_codes(&a[..n]) && sorted::rises(&a[..n]) && sorted::zeros_from(a, n)
}

// Returns whether the pins and the Steiner points are sets of codes apart from each other, few enough.
pub fn is_arranged(q: Points) -> bool
    ensures { result ≡ arranged q }
{
    q.npins <= MAX_PINS
        && q.nsteiner <= MAX_POINTS - q.npins
        && is_ordered(&q.pins, q.npins)
        && is_ordered(&q.steiner, q.nsteiner)
        && sorted::none_in(&q.pins[..q.npins], &q.steiner[..q.nsteiner])
}
