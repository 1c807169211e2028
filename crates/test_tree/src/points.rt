// What is asked of points that come from outside.
ghost use Rattle.std.specs.Prelude.{◌≡◌, length};
ghost use Rattle.keys.specs.Held.{held};
ghost use Rattle.tree.specs.Build.{Rises};
ghost use Rattle.test_tree.specs.Answers.{Points, Says};

// Whether each point is lower than the next.
fn rises(xs: &[u16], ys: &[u16]) -> bool
    requires { length xs.now ≡ length ys.now }
    ensures { Says (Rises (held xs.now ys.now) (length xs.now)) result }
{
    for i in 1..xs.len() {
        if !plane::is_lower(xs[i - 1], ys[i - 1], xs[i], ys[i]) {
            return false;
        }
    }
    true
}

// Returns whether these are at most 127 points that rise.
pub fn accepts(xs: &[u16], ys: &[u16]) -> bool
    ensures { Says (Points xs.now ys.now) result }
{
    xs.len() == ys.len() && xs.len() <= 127 && rises(xs, ys)
}
