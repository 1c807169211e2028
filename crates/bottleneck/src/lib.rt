// The table of bottlenecks: for each two of the first n numbers, the least x such that the keys of length at most x connect
// them. On a tree it is the longest edge of their path.
//
// The entry of the numbers u and v stands at u * PLACES + v. Kruskal's pass fills the table: the key that merges two labels is the
// longest so far, so its length is the bottleneck of each number with the one label and each with the other.
#![tactic(auto)]

ghost use Rattle.std.specs.Prelude.{◌≡◌, ℕ, ◌+◌, ◌≤◌, ◌<◌, length};
ghost use Rattle.keys.specs.Keys.{places};
ghost use Rattle.bottleneck.specs.Table.{entries, entry, chosen, RowFilled, LabelsMerged, FillRequires, Bottlenecks};

use keys::{high, low, weight};
use kruskal::{relabel, separate};
use plane::PLACES;

// The weight w if the label is the one wanted, else the old entry.
fn choice(label: u8, wanted: u8, w: u32, old: u32) -> u32
    ensures { result ≡ chosen wanted w label old }
{
    if label == wanted { w } else { old }
}

// Writes w to those of the entries from `start` on, one for each label, whose numbers have the label wanted.
fn fill_row(labels: &[u8], wanted: u8, w: u32, start: usize, table: &mut [u32])
    requires { start + length labels.now ≤ length table.old }
    ensures { RowFilled labels.now wanted w start (length labels.now) table.old table.new }
{
    for (j, label) in labels.iter().enumerate() {
        table[start + j] = choice(*label, wanted, w, table[start + j]);
    }
}

// Writes w to the entries of a number with the label a and one with the label b, in both orders.
fn join(labels: &[u8], a: u8, b: u8, w: u32, table: &mut [u32])
    requires { (length labels.now ≤ places) × (length table.old ≡ entries) }
    ensures { LabelsMerged labels.now a b w (length labels.now) table.old table.new }
{
    for (i, label) in labels.iter().enumerate() {
        let start = i * PLACES;
        if *label == a {
            fill_row(labels, b, w, start, table);
        } else if *label == b {
            fill_row(labels, a, w, start, table);
        }
    }
}

// Writes 0 to the entry of each number with itself.
fn clear_diagonal(n: usize, table: &mut [u32])
    requires { (n ≤ places) × (length table.old ≡ entries) }
    ensures { (u : ℕ) → u < n → entry table.new u u ≡ 0 }
{
    for i in 0..n {
        table[i * PLACES + i] = 0;
    }
}

// Fills the table from the keys, which rise and connect the first n numbers: entry (u, v) becomes the least x such that keys of
// weight at most x connect u and v. What the table holds before is of no account. Returns nothing.
pub fn fill(keys: &[u64], n: usize, table: &mut [u32])
    requires { FillRequires keys.now n (length table.old) }
    ensures { Bottlenecks keys.now n table.new }
{
    clear_diagonal(n, table);
    let mut labels = [0u8; PLACES];
    separate(&mut labels);
    for key in keys {
        let a = labels[low(*key)];
        let b = labels[high(*key)];
        if a != b {
            // Stays: `as`, since the number fits, as is proved; try_from would hand out an error that never comes.
            join(&labels[..n], a, b, weight(*key) as u32, table);
            relabel(&mut labels, a, b);
        }
    }
}
