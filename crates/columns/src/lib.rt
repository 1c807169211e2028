// One column by itself (SPEC 4.9): of the candidates with one x the lowest of greatest saving, with that saving, on a working form.
//
// Places that are held are no candidates. They spare nothing, and would win a column in which every candidate makes the tree longer, so their rows are
// left out before the search.
#![tactic(auto)]

ghost use Rattle.std.specs.Prelude.{◌≡◌, ◌∷◌, [], ◌+◌, ◌*◌, ◌≤◌, ◌<◌, length};
ghost use Rattle.std.proofs.Math.IntN.{sub_ℕ};
ghost use Rattle.arrays.specs.Set.{passing};
ghost use Rattle.arrays.specs.Paste.{Pasted};
ghost use Rattle.plane.specs.Coordinate.{coordinate, stored_limit};
ghost use Rattle.model.specs.State.{points};
ghost use Rattle.model.specs.Tail.{longest_tail};
ghost use Rattle.regions.specs.Rays.{far};
ghost use Rattle.search.specs.Search.{try_all, nothing_found, most_gain};
ghost use Rattle.working.specs.InOrder as work;
ghost use Rattle.columns.specs.Column.{candidates_at, column_answer};
ghost use Rattle.columns.specs.Found.{is_free, choice_of, choice_found};

use crossing::greatest_in_column;
use crossing::prepare::lines;
use plane::codes::{locate, pack, x_of};
use plane::{PLACES, difference, to_signed};
use score::gain::FAR;
use search::found::Greatest;
use working::Working;

// What a column names: a candidate by its x, its y and its saving.
#[derive(Clone, Copy)]
pub struct Candidate {
    pub x: i32,
    pub y: i32,
    pub saving: i32,
}

// Puts the row y at the place `at` of `free`, unless a point is held where the column x meets it. Returns the place behind it, or `at`.
fn put_free(codes: &[u64], x: u16, y: u16, free: &mut [u16], at: usize) -> usize
    requires { at < length free.old }
    ensures pasted { Pasted (passing (is_free codes.now x) (y ∷ [])) free.old free.new at result }
    ensures upper_bound { result ≤ at + 1 }
{
    if sorted::has(codes, pack(x, y)) {
        return at;
    }
    free[at] = y;
    at + 1
}

// Puts those of the rows at which no point of the column x is held at the front of `free`, in the same order. Returns how many there are.
fn free_rows(codes: &[u64], x: u16, rows: &[u16], free: &mut [u16]) -> usize
    requires { length rows.now ≤ length free.old }
    ensures { Pasted (passing (is_free codes.now x) rows.now) free.old free.new 0 result }
{
    let mut kept = 0;
    for y in rows {
        kept = put_free(codes, x, *y, free, kept);
    }
    kept
}

// The candidate with this x that has the greatest gain, the lowest of several, with that gain; none where there is none. If no row of the column is held,
// no point has that x.
fn greatest(w: Working, x: u16) -> Greatest
    requires x_le_stored_limit { x ≤ stored_limit }
    ensures value { result ≡ try_all (points (work.state_of w)) nothing_found (candidates_at (coordinate x) (points (work.state_of w))) }
    ensures gain_le_most_gain { result.gain ≤ most_gain }
{
    let n = w.npoints;
    let ys = &w.ys[..n];
    let mut lines_of_rows = [0u16; PLACES];
    let count = lines(ys, &mut lines_of_rows);
    let rows = &lines_of_rows[..count];
    let mut free = [0u16; PLACES];
    let kept = free_rows(&w.codes[..n], x, rows, &mut free);
    if kept == rows.len() {
        return Greatest {
            gain: 0,
            best: None,
        };
    }
    greatest_in_column(&w.xs[..n], ys, &w.keys[..w.nkeys], x, &free[..kept])
}

// The saving of a gain: how much it is above that of a crossing that saves nothing, which spares an edge of length FAR and the two tails of its run.
fn saving_of(gain: u64, tail: u64) -> i32
    requires { (gain ≤ most_gain) × (tail ≤ longest_tail) }
    ensures { result ≡ sub_ℕ gain (far + 2 * tail) }
{
    difference(gain, FAR + 2 * tail)
}

// What was found, as the answer.
fn choice_of(found: Greatest, tail: u64) -> Option<Candidate>
    requires { (found.gain ≤ most_gain) × (tail ≤ longest_tail) }
    ensures { result ≡ choice_found tail found }
{
    let at = found.best?;
    let x = to_signed(at.x);
    let y = to_signed(at.y);
    let saving = saving_of(found.gain, tail);
    Some(Candidate { x, y, saving })
}

// Returns the lowest of the candidates with this x that have the greatest saving, with that saving, or none. Of the point that is located only
// x is looked at, so any y in range would do.
pub fn column(w: Working, x: i32, tail: u64) -> Option<Candidate>
    requires tail_le_longest_tail { tail ≤ longest_tail }
    ensures { result ≡ choice_of (column_answer tail (points (work.state_of w)) x) }
{
    match locate(x, 0) {
        None => None,
        Some(k) => choice_of(greatest(w, x_of(k)), tail),
    }
}
