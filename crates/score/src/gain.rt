// What a crossing spares, from the rays of its nearest points and the table of the tree's bottlenecks.
ghost use Rattle.std.specs.Prelude.{◌≡◌, ◌∷◌, [], ◌-◌, ◌≤◌, ◌<◌, length};
ghost use Rattle.regions.specs.Rays.{places, table_size, ray_length, ray_point, far};
ghost use Rattle.regions.specs.Nearest.{Complements};
ghost use Rattle.score.specs.Gain as spec;

use regions::nearest::{EAST, NORTH, SOUTH, WEST, ray_of};
use regions::rows::SCALE;

// Longer than every edge between two points.
// Stays: `as`, since a constant calls no From.
pub const FAR: u64 = regions::nearest::FAR as u64;

// min(rest, max(length of k, bottleneck of the two points)): the bottleneck of the crossing and the point of the ray q with the ray k, where
// it is `rest` without it.
// Stays: the table is a slice of a length that a clause says, since `search::column` hands in a slice, and its types may not ask more.
fn over(table: &[u32], k: u32, q: u32, rest: u64) -> u64
    requires { (length table.now ≡ table_size) × (rest ≤ far) }
    ensures { (result ≡ spec.over (spec.table_at table.now) k (ray_point q) rest) × (result ≤ far) }
{
    // Stays: `as`, since no From takes a u32 to a usize.
    let b = table[(k % SCALE * SCALE + q % SCALE) as usize];
    u64::from(k / SCALE).max(u64::from(b)).min(rest)
}

// max(0, b − length of k).
fn spared(b: u64, k: u32) -> u64
    requires { b ≤ far }
    ensures { (result ≡ b - ray_length k) × (result ≤ far) }
{
    b.saturating_sub(u64::from(k / SCALE))
}

// How much four rays, one after the other, lower the least weight below that with an edge of length FAR: for each,
// max(0, bottleneck of its point and the crossing by the rays before it − its length).
// Stays: the table is a slice, as in `over`.
fn gain(table: &[u32], east: u32, west: u32, north: u32, south: u32) -> u64
    requires { length table.now ≡ table_size }
    ensures { result ≡ spec.gain (spec.table_at table.now) (south ∷ north ∷ west ∷ east ∷ []) }
{
    let w = over(table, east, west, FAR);
    let n = over(table, west, north, over(table, east, north, FAR));
    let s = over(
        table,
        north,
        south,
        over(table, west, south, over(table, east, south, FAR)),
    );
    spared(FAR, east) + spared(w, west) + spared(n, north) + spared(s, south)
}

// Returns the gain of the least rays at a row.
// Stays: the table is a slice, as in `over`.
pub fn gain_at(table: &[u32], least: &[u32], row: usize) -> u64
    requires { (length table.now ≡ table_size) × Complements least.now × (row < places) }
    ensures { result ≡ spec.gain (spec.table_at table.now) (spec.rays_at least.now row) }
{
    gain(
        table,
        ray_of(least[EAST + row]),
        ray_of(least[WEST + row]),
        ray_of(least[NORTH + row]),
        ray_of(least[SOUTH + row]),
    )
}
