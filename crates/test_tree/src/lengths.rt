// The lengths of the tree with a point more, for many such points: the tree and the table of its bottlenecks are made once, and each
// point is tried on them.
ghost use Rattle.std.specs.Prelude.{◌≡◌, ◌++◌, ◌≤◌, length, drop};
ghost use Rattle.tree.specs.Build.{length_with};
ghost use Rattle.regions.specs.Rays.{places, table_size};
ghost use Rattle.score.specs.Length.{Measured};
ghost use Rattle.test_tree.specs.Answers.{Points, lengths_with};
ghost use Rattle.test_tree.specs.Given.{Tried};

use plane::PLACES;
use regions::rows::blank;
use score::length::length_with;
use tree::build::build;
use tree::list::total_of;

// The length of the tree of the points and the point at (x, y): 0 where there is no other. The last two slices are scratch.
// Stays: eight parameters, since the tables to work in are lent by the caller (no heap), and the rest is a tree and one point.
fn length_at(
    xs: &[u16],
    ys: &[u16],
    table: &[u32],
    plain: u64,
    x: u16,
    y: u16,
    gaps: &mut [u32],
    ranks: &mut [usize],
) -> u64
    requires { Measured xs.now ys.now table.now plain × (length gaps.old ≡ table_size) × (length ranks.old ≡ places) }
    ensures { result ≡ length_with xs.now ys.now (length xs.now) x y }
{
    if xs.is_empty() {
        return 0;
    }
    length_with(xs, ys, table, plain, x, y, gaps, ranks)
}

// Tries each crossing on a tree.
// Stays: seven parameters, since the tables to work in are lent by the caller (no heap), and the rest is what the entry was handed.
fn try_each(
    xs: &[u16],
    ys: &[u16],
    table: &[u32],
    plain: u64,
    cx: &[u16],
    cy: &[u16],
    out: &mut [u64],
)
    requires { Tried xs.now ys.now table.now plain cx.now cy.now (length out.old) }
    ensures { out.new
        ≡ lengths_with xs.now ys.now (length xs.now) cx.now cy.now (length cx.now)
        ++ drop (length cx.now) out.old }
{
    let mut gaps = blank();
    let mut ranks = [0usize; PLACES];
    for (i, x) in cx.iter().enumerate() {
        out[i] = length_at(xs, ys, table, plain, *x, cy[i], &mut gaps, &mut ranks);
    }
}

// Builds the tree, and puts its length with each crossing at the front of `out`. Returns nothing.
pub fn lengths(xs: &[u16], ys: &[u16], cx: &[u16], cy: &[u16], out: &mut [u64])
    requires { Points xs.now ys.now × (length cx.now ≤ length cy.now) × (length cx.now ≤ length out.old) }
    ensures { out.new
        ≡ lengths_with xs.now ys.now (length xs.now) cx.now cy.now (length cx.now)
        ++ drop (length cx.now) out.old }
{
    let n = xs.len();
    let mut keys = [0u64; 144];
    let m = build(xs, ys, &mut keys);
    let plain = total_of(&keys[..m]);
    let mut table = blank();
    bottleneck::fill(&keys[..m], n, &mut table);
    try_each(xs, ys, &table, plain, cx, cy, out);
}
