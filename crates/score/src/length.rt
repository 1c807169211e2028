// The length of a tree with one point more, held or not.
ghost use Rattle.std.specs.Prelude.{◌≡◌, ◌≤◌, ◌<◌, length};
ghost use Rattle.tree.specs.Build.{length_with};
ghost use Rattle.regions.specs.Rays.{table_size};
ghost use Rattle.score.specs.Length.{Measured};

use super::gain::{FAR, gain_at};
use regions::nearest::{Points, no_rays};
use regions::rows::locate;

// Returns the length of the tree of the points and one at (x, y), the crossing of the column x with the only row y. Their own
// tree has this total length and the bottlenecks in the table. What `gaps` and `ranks` hold before is of no account.
// Stays: eight parameters, since the tables to work in are lent by the caller (no heap), and the rest is a tree and one point.
pub fn length_with(
    xs: &[u16],
    ys: &[u16],
    table: &[u32],
    total: u64,
    x: u16,
    y: u16,
    gaps: &mut [u32],
    ranks: &mut [usize],
) -> u64
    requires measured { Measured xs.now ys.now table.now total }
    requires n_nonzero { (0 < length xs.now) × (length gaps.old ≡ table_size) × (length xs.now ≤ length ranks.old) }
    ensures { result ≡ length_with xs.now ys.now (length xs.now) x y }
{
    let rows = [y];
    locate(ys, &rows, gaps, ranks);
    let mut least = no_rays();
    let points = Points {
        xs,
        gaps,
        ranks,
        rows: &rows,
    };
    points.nearest(x, &mut least);
    total + FAR - gain_at(table, &least, 0)
}
