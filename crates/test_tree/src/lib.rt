// The tree for tests in another language: functions over slices that ask nothing of their caller. A refusal is the answer REFUSED, and
// nothing is written then.
#![tactic(auto)]

mod lengths;
mod points;

ghost use Rattle.std.specs.Prelude.{◌≡◌};
ghost use Rattle.spanning.specs.Graph.{degree};
ghost use Rattle.keys.specs.Keys.{key_graph};
ghost use Rattle.test_tree.specs.Answers.{Builds, Measures, Lists};

use lengths::lengths;
use points::accepts;
use tree::build::build;
use tree::list::{degree_of, listing};

// No count: the largest usize.
// Stays: a number and no Option, since another language calls these functions.
const REFUSED: usize = usize::MAX;

// Puts the keys of the tree of the points at the front of `keys`. Returns their number, or REFUSED where the points do not rise or there is
// too little room.
#[unsafe(no_mangle)]
pub extern "C" fn entry_build(xs: &[u16], ys: &[u16], keys: &mut [u64]) -> usize
    ensures { Builds xs.now ys.now keys.old keys.new result }
{
    if !accepts(xs, ys) {
        return REFUSED;
    }
    let n = xs.len();
    if keys.len() < n + 8 {
        return REFUSED;
    }
    build(xs, ys, keys)
}

// Puts for each crossing the length of the tree of the points and the point there at the front of `out`. Returns the number of crossings, or
// REFUSED where the points do not rise or there is too little room.
#[unsafe(no_mangle)]
pub extern "C" fn entry_lengths(
    xs: &[u16],
    ys: &[u16],
    cx: &[u16],
    cy: &[u16],
    out: &mut [u64],
) -> usize
    ensures { Measures xs.now ys.now cx.now cy.now out.old out.new result }
{
    if !accepts(xs, ys) {
        return REFUSED;
    }
    let c = cx.len();
    if cy.len() != c {
        return REFUSED;
    }
    if out.len() < c {
        return REFUSED;
    }
    lengths(xs, ys, cx, cy, out);
    c
}

// Returns how many of the keys have an end at the number i.
#[unsafe(no_mangle)]
pub extern "C" fn entry_degree(keys: &[u64], i: usize) -> usize
    ensures { result ≡ degree key_graph i keys.now }
{
    degree_of(keys, i)
}

// Puts the two numbers of each key as one code, least first, at the front of `out`. Returns their number, or REFUSED where there is too
// little room.
#[unsafe(no_mangle)]
pub extern "C" fn entry_listing(keys: &[u64], out: &mut [u64]) -> usize
    ensures { Lists keys.now out.old out.new result }
{
    if out.len() < keys.len() {
        return REFUSED;
    }
    listing(keys, out)
}
