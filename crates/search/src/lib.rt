// The search over the crossings, column by column.
#![tactic(auto)]

pub mod found;

ghost use Rattle.std.specs.Prelude.{◌≡◌, List, map, ℕ, length};
ghost use Rattle.plane.specs.Point.{Point};
ghost use Rattle.plane.specs.Coordinate.{coordinate};
ghost use Rattle.model.specs.Round as round;
ghost use Rattle.regions.specs.Rays.{table_size};
ghost use Rattle.regions.specs.Nearest.{Complements};
ghost use Rattle.score.specs.Prepared.{Prepared};
ghost use Rattle.search.specs.Search.{Spares, points_of, greater, try_all};

use found::{Crossing, Greatest};
use regions::nearest::{Points, no_rays};
use score::gain::gain_at;

// A crossing of the gain g: it takes the place of the best so far where it gains more.
fn better(known: Greatest, g: u64, x: u16, y: u16) -> Greatest
    ensures { result ≡ greater known g x y }
{
    if known.gain < g {
        return Greatest {
            gain: g,
            best: Some(Crossing { x, y }),
        };
    }
    known
}

// The crossings of one x with the rows, by the least rays at the rows.
// Stays: the table is a slice of a length that a clause says, as `column` has one and hands it on.
fn pick(points: &Points, table: &[u32], x: u16, least: &[u32], known: Greatest) -> Greatest
    requires { (length table.now ≡ table_size) × Complements least.now }
    ensures { (ps : List Point) → Spares table.now x points.now.rows.now least.now ps
        → result ≡ try_all ps known (round.column (coordinate x) (map coordinate points.now.rows.now)) }
{
    let mut best = known;
    for (row, y) in points.rows.iter().enumerate() {
        best = better(best, gain_at(table, least, row), x, *y);
    }
    best
}

// Tries the crossings of one x with the rows. Returns the best so far: the one handed in, or one that gains more.
// Stays: a slice of a length that a clause says, as an array would ask more of who calls `column`, which docs/CLAIMS.md names.
pub fn column(points: &Points, table: &[u32], x: u16, known: Greatest) -> Greatest
    requires { length table.now ≡ table_size }
    ensures { let p = points.now in (ys : List ℕ) → Prepared p.xs.now ys table.now p.gaps.now p.ranks.now p.rows.now
        → result ≡ try_all (points_of p.xs.now ys) known (round.column (coordinate x) (map coordinate p.rows.now)) }
{
    let mut least = no_rays();
    points.nearest(x, &mut least);
    pick(points, table, x, &least, known)
}

// Tries the crossings of the columns with the rows. Returns the best of all, or what was handed in.
// Stays: a slice of a length that a clause says, as an array would ask more of who calls `all_columns`, which docs/CLAIMS.md names.
pub fn all_columns(points: &Points, table: &[u32], columns: &[u16], known: Greatest) -> Greatest
    requires { length table.now ≡ table_size }
    ensures { let p = points.now in (ys : List ℕ) → Prepared p.xs.now ys table.now p.gaps.now p.ranks.now p.rows.now
        → result ≡ try_all (points_of p.xs.now ys) known (round.crossings (map coordinate columns.now) (map coordinate p.rows.now)) }
{
    let mut best = known;
    for x in columns {
        best = column(points, table, *x, best);
    }
    best
}
