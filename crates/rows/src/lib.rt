// The lines of a deck's listing: the two of three numbers, a tap line for each Steiner point and a run line for each edge.
#![tactic(auto)]

ghost use Rattle.std.specs.Prelude.{map, ◌+◌, ◌*◌, ◌≤◌, length};
ghost use Rattle.plane.specs.Coordinate.{coordinate};
ghost use Rattle.model.specs.Listing as model;
ghost use Rattle.plane.specs.Code.{point_of};
ghost use Rattle.model.specs.State.{Valid};
ghost use Rattle.model.specs.Tail.{longest_tail};
ghost use Rattle.model.specs.Question.{listed};
ghost use Rattle.working.specs.InOrder.{state_of};
ghost use Rattle.edges.specs.Edges.{edge_of};
ghost use Rattle.rows.specs.Line.{tap_line, run_line};
ghost use Rattle.arrays.specs.Paste.{Pasted};

use arrays::paste::{put_byte, put_items};
use ascii::{decimal_field, number_fields, signed_field};
use edges::{CodedEdge, edge_at, edge_numbers};
use plane::codes::{x_of, y_of};
use working::Working;

// A space and a coordinate, given in its stored form.
fn coordinate_field(out: &mut [u8], at: usize, u: u16) -> usize
    requires { at + 22 ≤ length out.old }
    ensures pasted { Pasted (model.field (model.signed_decimal (coordinate u))) out.old out.new at result }
    ensures upper_bound { result ≤ at + 7 }
{
    signed_field(out, at, plane::to_signed(u))
}

// The coordinates of a point, given by its code.
fn point_fields(out: &mut [u8], at: usize, k: u64) -> usize
    requires { at + 29 ≤ length out.old }
    ensures pasted { Pasted (model.point_fields (point_of k)) out.old out.new at result }
    ensures upper_bound { result ≤ at + 14 }
{
    let next = coordinate_field(out, at, x_of(k));
    coordinate_field(out, next, y_of(k))
}

// Puts the line of a word and three numbers from place `at` on. Returns the place behind it.
pub fn numbers_line(out: &mut [u8], at: usize, w: &[u8], a: u64, b: u64, c: u64) -> usize
    requires { at + (length w.now + 64) ≤ length out.old }
    ensures pasted { Pasted (model.numbers_line w.now a b c) out.old out.new at result }
    ensures upper_bound { result ≤ at + (length w.now + 64) }
{
    let numbers = put_items(out, at, w);
    let end = number_fields(out, numbers, a, b, c);
    put_byte(out, end, b'\n')
}

// The tap line of a Steiner point, given by its code.
fn tap_line(out: &mut [u8], at: usize, k: u64) -> usize
    requires { at + 32 ≤ length out.old }
    ensures pasted { Pasted (tap_line (point_of k)) out.old out.new at result }
    ensures upper_bound { result ≤ at + 18 }
{
    let a = put_items(out, at, b"tap");
    let b = point_fields(out, a, k);
    put_byte(out, b, b'\n')
}

// Puts the tap lines of Steiner points, given by their codes, from place `at` on. Returns the place behind them.
pub fn tap_lines(out: &mut [u8], at: usize, codes: &[u64]) -> usize
    requires { at + 18 * length codes.now + 32 ≤ length out.old }
    ensures pasted { Pasted (model.tap_lines (map point_of codes.now)) out.old out.new at result }
    ensures upper_bound { result ≤ at + 18 * length codes.now }
{
    let mut next = at;
    for k in codes {
        next = tap_line(out, next, *k);
    }
    next
}

// The run line of an edge.
fn run_line(out: &mut [u8], at: usize, e: CodedEdge) -> usize
    requires { at + 53 ≤ length out.old }
    ensures pasted { Pasted (run_line (edge_of e) e.length) out.old out.new at result }
    ensures upper_bound { result ≤ at + 53 }
{
    let n = put_items(out, at, b"run");
    let p = point_fields(out, n, e.low);
    let q = point_fields(out, p, e.high);
    let r = decimal_field(out, q, e.length);
    put_byte(out, r, b'\n')
}

// Puts the run lines of a working form from place `at` on, with the tails in their lengths. Returns the place behind them.
pub fn run_lines(out: &mut [u8], at: usize, w: Working, tail: u64) -> usize
    requires at_in_bounds { at + 6625 ≤ length out.old }
    requires valid { Valid (state_of w) }
    requires tail_le_longest_tail { tail ≤ longest_tail }
    ensures { Pasted (model.run_lines tail (listed (state_of w))) out.old out.new at result }
{
    let ends = edge_numbers(w);
    let mut next = at;
    for i in 0..w.nkeys {
        next = run_line(out, next, edge_at(w, &ends, i, tail));
    }
    next
}
