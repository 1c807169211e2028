// What a column's search needs of the rows: for each point the distance to each row, and how many rows are below it.
ghost use Rattle.std.specs.Prelude.{◌≡◌, ◌+◌, ◌≤◌, length};
ghost use Rattle.regions.specs.Rays.{places, table_size};
ghost use Rattle.regions.specs.Rows.{RowsGiven, Ranked, RowGaps, Located};

use plane::PLACES;

// A ray is its length times this, and the point's number, which is less.
// Stays: `as`, since a constant calls no From.
pub const SCALE: u32 = PLACES as u32;

// A table of PLACES rows of PLACES.
pub const TABLE_SIZE: usize = PLACES * PLACES;

// Returns room for an entry for each point and row, or for each two points, all 0.
pub fn blank() -> [u32; TABLE_SIZE]
    ensures { length result ≡ table_size }
{
    [0u32; TABLE_SIZE]
}

// How many of the rows are below y.
fn rank(rows: &[u16], y: u16) -> usize
    requires { RowsGiven rows.now }
    ensures { Ranked rows.now (length rows.now) y result }
{
    for (r, row) in rows.iter().enumerate() {
        if y <= *row {
            return r;
        }
    }
    rows.len()
}

// The distances of y to the rows, times 128, from the place `start` on.
fn row_gaps(rows: &[u16], y: u16, start: usize, gaps: &mut [u32])
    requires { start + length rows.now ≤ length gaps.old }
    ensures { RowGaps rows.now (length rows.now) y start gaps.old gaps.new }
{
    for (r, row) in rows.iter().enumerate() {
        gaps[start + r] = u32::from(plane::apart(y, *row)) * SCALE;
    }
}

// Locates each point among the rows: puts its distances to them, those of the point j from the place j * 128 on, and how many are below.
// Returns nothing.
pub fn locate(ys: &[u16], rows: &[u16], gaps: &mut [u32], ranks: &mut [usize])
    requires { RowsGiven rows.now × (length ys.now ≤ places) × (length gaps.old ≡ table_size)
        × (length ys.now ≤ length ranks.old) }
    ensures { Located ys.now (length ys.now) rows.now (length rows.now) gaps.new ranks.new }
{
    for (j, y) in ys.iter().enumerate() {
        row_gaps(rows, *y, j * PLACES, gaps);
        ranks[j] = rank(rows, *y);
    }
}
