// Kruskal's pass over a list of keys: for each key, whether its two numbers are connected already by the keys that
// were kept before. Each of the numbers below PLACES has a label, and two numbers are connected exactly if they have the same one.
#![tactic(auto)]

ghost use Rattle.std.specs.Prelude.{◌≡◌, [], ℕ, ◌≤◌, ◌<◌, length, get_or};
ghost use Rattle.spanning.specs.Kruskal.{kruskal};
ghost use Rattle.keys.specs.Keys.{places, key_graph};
ghost use Rattle.arrays.specs.Paste.{Pasted};
ghost use Rattle.kruskal.specs.Labels.{moved};

use keys::{high, low};
use plane::PLACES;

// The label c, with b in the place of a.
fn choice(c: u8, a: u8, b: u8) -> u8
    ensures { result ≡ moved a b c }
{
    if c == a { b } else { c }
}

// Puts the label b in the place of the label a, everywhere. Returns nothing.
pub fn relabel(labels: &mut [u8], a: u8, b: u8)
    requires { length labels.old ≡ places }
    ensures { (u : ℕ) → u < places → get_or labels.new u 0 ≡ moved a b (get_or labels.old u 0) }
{
    for label in labels.iter_mut() {
        *label = choice(*label, a, b);
    }
}

// Gives each number its own label. Returns nothing.
pub fn separate(labels: &mut [u8])
    requires { length labels.old ≡ places }
    ensures { (u : ℕ) → u < places → get_or labels.new u 0 ≡ u }
{
    for (i, label) in labels.iter_mut().enumerate() {
        // Stays: `as`, since the number fits, as is proved; try_from would hand out an error that never comes.
        *label = i as u8;
    }
}

// Writes those of the keys that Kruskal's method keeps to the front of `out`, in their order, and returns their number.
// The keys need be in no order here.
pub fn span(keys: &[u64], out: &mut [u64]) -> usize
    requires { length keys.now ≤ length out.old }
    ensures { Pasted (kruskal key_graph [] keys.now) out.old out.new 0 result }
{
    let mut labels = [0u8; PLACES];
    separate(&mut labels);
    let mut n = 0;
    for key in keys {
        let a = labels[low(*key)];
        let b = labels[high(*key)];
        if a != b {
            out[n] = *key;
            n += 1;
            relabel(&mut labels, a, b);
        }
    }
    n
}
