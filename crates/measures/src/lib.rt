// What is counted and measured of a deck in working form. The listing and the questions both ask here.
#![tactic(auto)]

ghost use Rattle.std.specs.Prelude.{◌≡◌, length};
ghost use Rattle.model.specs.Contents.{ValidContents};
ghost use Rattle.model.specs.KindLength.{kind_lengths};
ghost use Rattle.working.specs.WorkingDeck.{contents_of};
ghost use Rattle.measures.specs.Measures.{measures_of, coded_kind};

use edges::{CodedEdge, edge_at, edge_numbers, length_of};
use points::kinds::{SENSOR, kind_or};
use working::deck::WorkingDeck;

// How many kinds of devices there are.
pub const KIND_COUNT: usize = 3;

// The numbers of pins, Steiner points and edges, and the length of the tree.
#[derive(Clone, Copy)]
pub struct Measures {
    pub pins: u64,
    pub steiner: u64,
    pub edges: u64,
    pub length: u64,
}

// Returns the counts and the length of a deck.
pub fn measure(d: WorkingDeck) -> Measures
    requires { ValidContents (contents_of d) }
    ensures { result ≡ measures_of (contents_of d) }
{
    Measures {
        // Stays: `as`, since no From takes a usize to a u64.
        pins: d.form.points.npins as u64,
        steiner: d.form.points.nsteiner as u64,
        edges: d.form.nkeys as u64,
        length: length_of(d.form, d.tail),
    }
}

// The kind of an edge by the pins and their kinds: the larger at its ends, where a Steiner point counts as a sensor.
fn edge_kind(e: CodedEdge, pins: &[u64], kinds: &[u8]) -> u8
    requires { length pins.now ≡ length kinds.now }
    ensures { result ≡ coded_kind e pins.now kinds.now }
{
    let low = kind_or(pins, kinds, e.low, SENSOR);
    let high = kind_or(pins, kinds, e.high, SENSOR);
    low.max(high)
}

// Returns how long the edges of each kind of device are together.
pub fn kind_lengths(d: WorkingDeck) -> [u64; KIND_COUNT]
    requires valid_contents { ValidContents (contents_of d) }
    ensures { result ≡ kind_lengths (contents_of d) }
{
    let npins = d.form.points.npins;
    let ends = edge_numbers(d.form);
    let mut sums = [0u64; KIND_COUNT];
    for i in 0..d.form.nkeys {
        let e = edge_at(d.form, &ends, i, d.tail);
        let k = usize::from(edge_kind(e, &d.form.points.pins[..npins], &d.kinds[..npins]));
        sums[k] += e.length;
    }
    sums
}
