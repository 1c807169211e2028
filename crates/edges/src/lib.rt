// The edges of a working form in the listing order, and lengths with tails. Whoever needs the edges of a deck or a length asks here.
#![tactic(auto)]

ghost use Rattle.std.specs.Prelude.{◌≡◌, ◌≤◌, ◌<◌};
ghost use Rattle.plane.specs.Point.{dist};
ghost use Rattle.plane.specs.Code.{point_of};
ghost use Rattle.model.specs.State.{points};
ghost use Rattle.model.specs.Tail.{longest_tail, tree_length_with};
ghost use Rattle.working.specs.InOrder.{state_of};
ghost use Rattle.edges.specs.Edges.{edge_row, EdgeAt};

use keys::FACTOR;
use plane::codes::{x_of, y_of};
use points::PLACES;
use working::Working;

// An edge by the codes of its ends, the lower first, and its length.
#[derive(Clone, Copy)]
pub struct CodedEdge {
    pub low: u64,
    pub high: u64,
    pub length: u64,
}

// Returns the length of the tree: its distances together, and two tails for each edge.
pub fn length_of(w: Working, tail: u64) -> u64
    requires tail_le_longest_tail { tail ≤ longest_tail }
    ensures { result ≡ tree_length_with tail (points (state_of w)) }
{
    // Stays: `as`, since no From takes a usize to a u64.
    tree::list::total_of(&w.keys[..w.nkeys]) + 2 * tail * (w.nkeys as u64)
}

// Returns the edges of the tree in the listing order, each by the numbers of its two ends in one, with zeros behind.
pub fn edge_numbers(w: Working) -> [u64; PLACES]
    ensures { result ≡ edge_row (state_of w) }
{
    let mut ends = [0u64; PLACES];
    tree::list::listing(&w.keys[..w.nkeys], &mut ends);
    ends
}

// The distance of two points, given by their codes.
fn distance_of(a: u64, b: u64) -> u64
    ensures { result ≡ dist (point_of a) (point_of b) }
{
    u64::from(plane::distance(x_of(a), y_of(a), x_of(b), y_of(b)))
}

// Returns the edge at a place of the listing order, from the numbers of all edges, with the tails in its length.
pub fn edge_at(w: Working, ends: &[u64; PLACES], i: usize, tail: u64) -> CodedEdge
    requires ends_value { ends.now ≡ edge_row (state_of w) }
    requires i_lt_nkeys { i < w.nkeys }
    requires tail_le_longest_tail { tail ≤ longest_tail }
    ensures { EdgeAt tail (state_of w) i result }
{
    let codes = w.codes;
    let both = ends[i];
    // Stays: `as`, since no From takes a u64 to a usize.
    let low = codes[(both / FACTOR) as usize];
    let high = codes[(both % FACTOR) as usize];
    CodedEdge {
        low,
        high,
        length: distance_of(low, high) + 2 * tail,
    }
}
