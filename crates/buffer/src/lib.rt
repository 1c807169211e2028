// The header and the sections of a deck file put into a buffer. Each function returns the place behind what it puts.
#![tactic(auto)]

pub mod file;

ghost use Rattle.std.specs.Prelude.{◌++◌, ◌+◌, ◌*◌, ◌≤◌, ◌<◌, length};
ghost use Rattle.arrays.specs.Number.{bytes4};
ghost use Rattle.arrays.specs.Paste.{Pasted, each};
ghost use Rattle.model.specs.Sections.{header_size, pairs_from, header, sum_of, file_size};
ghost use Rattle.sections.specs.Bytes.{ends_bytes, code_bytes};

use arrays::number::{put2, put4};
use arrays::paste::put_items;
use header::header_size;
use keys::FACTOR;
use plane::codes::{x_of, y_of};
use plane::word_of;

// Puts the pair of offset and length of a section.
fn put_pair(offset: usize, size: usize, out: &mut [u8], at: usize) -> usize
    requires { at + 8 ≤ length out.old }
    ensures { Pasted (bytes4 offset ++ bytes4 size) out.old out.new at result }
{
    let next = put4(out, at, offset);
    put4(out, next, size)
}

// Puts the pairs of sections of these lengths from place `at` on; the sections stand one behind the other, the first from place `start` on.
// Returns the place behind the pairs.
fn put_pairs(sizes: &[usize], start: usize, out: &mut [u8], at: usize) -> usize
    requires sizes_in_bounds { at + 8 * length sizes.now ≤ length out.old }
    requires sizes_bound { start + sum_of sizes.now < 4294967296 }
    ensures { Pasted (pairs_from start sizes.now) out.old out.new at result }
{
    let mut offset = start;
    let mut next = at;
    for size in sizes {
        next = put_pair(offset, *size, out, next);
        offset += *size;
    }
    next
}

// Puts the header of sections of these lengths at the front. Returns the place behind it.
pub fn put_header(sizes: &[usize], out: &mut [u8]) -> usize
    requires sizes_in_bounds { header_size (length sizes.now) ≤ length out.old }
    requires sizes_bound { file_size sizes.now < 4294967296 }
    ensures { Pasted (header sizes.now) out.old out.new 0 result }
{
    let count = put_items(out, 0, b"DECK");
    let first = put2(out, count, sizes.len());
    put_pairs(sizes, header_size(sizes.len()), out, first)
}

// Puts the point that a code stands for.
fn put_point(k: u64, out: &mut [u8], at: usize) -> usize
    requires { at + 4 ≤ length out.old }
    ensures { Pasted (code_bytes k) out.old out.new at result }
{
    let next = put2(out, at, word_of(x_of(k)));
    put2(out, next, word_of(y_of(k)))
}

// Puts an edge.
fn put_edge(k: u64, out: &mut [u8], at: usize) -> usize
    requires { at + 2 ≤ length out.old }
    ensures { Pasted (ends_bytes k) out.old out.new at result }
{
    // Stays: `as`, since the number fits, as is proved; try_from would hand out an error that never comes.
    put_items(out, at, &[(k / FACTOR % 256) as u8, (k % FACTOR) as u8])
}

// Stays: two short loops for points and edges. One function for both takes a closure, whose contract has to say for every item and every
// buffer where it may be called and what it puts, which is longer than the two loops.
// Puts the points of these codes from place `at` on, four bytes each. Returns the place behind them.
pub fn put_points(codes: &[u64], out: &mut [u8], at: usize) -> usize
    requires { at + 4 * length codes.now ≤ length out.old }
    ensures { Pasted (each code_bytes codes.now) out.old out.new at result }
{
    let mut next = at;
    for code in codes {
        next = put_point(*code, out, next);
    }
    next
}

// Puts these edges from place `at` on, two bytes each. Returns the place behind them.
pub fn put_edges(ends: &[u64], out: &mut [u8], at: usize) -> usize
    requires { at + 2 * length ends.now ≤ length out.old }
    ensures { Pasted (each ends_bytes ends.now) out.old out.new at result }
{
    let mut next = at;
    for edge in ends {
        next = put_edge(*edge, out, next);
    }
    next
}
