// The nearest points of the crossings of one column, by sides: for each row the least ray of each side, all rows at a time.
//
// A ray is kept as its complement, how much it is below FAR_RAY: no ray is 0, and the least ray has the greatest complement.
ghost use Rattle.std.specs.Prelude.{◌≡◌, ◌+◌, ◌-◌, ◌≤◌, ◌<◌, max, ltb, length};
ghost use Rattle.arrays.specs.Test.{if};
ghost use Rattle.regions.specs.Rays.{far_ray};
ghost use Rattle.regions.specs.Nearest as spec;

use super::rows::SCALE;
use plane::PLACES;

// Longer than every edge between two points: stored coordinates are at most 65,535 apart on each axis.
pub const FAR: u32 = 131072;

// The ray of no point: one of length FAR to point 0.
const FAR_RAY: u32 = FAR * SCALE;

// Where the rays of each side stand in an array of all: PLACES rows of each.
// Stays: numbers and not an enum of sides, as the inner loop adds them to a row's number.
pub const EAST: usize = 0;

pub const WEST: usize = PLACES;

pub const NORTH: usize = 2 * PLACES;

pub const SOUTH: usize = 3 * PLACES;

// Room for the rays of four sides.
pub const RAY_PLACES: usize = 4 * PLACES;

// Returns an array with no ray at any row.
pub fn no_rays() -> [u32; RAY_PLACES]
    ensures { spec.NoRays result }
{
    [0u32; RAY_PLACES]
}

// Returns the ray of a complement.
pub fn ray_of(complement: u32) -> u32
    requires { complement ≤ far_ray }
    ensures { result ≡ far_ray - complement }
{
    FAR_RAY - complement
}

// Whether a is less than b. Signed numbers compare faster, four at a time.
fn less(a: u32, b: u32) -> bool
    requires { (a ≤ far_ray) × (b ≤ far_ray) }
    ensures { result ≡ ltb a b }
{
    // Stays: `as`, since both fit, as is proved, and no error may be handed out in the inner loop.
    (a as i32) < (b as i32)
}

// The first number where the test passes, else the second.
fn choose(test: bool, a: u32, b: u32) -> u32
    ensures { (result ≡ if test (λ _. a) (λ _. b)) × (result ≤ max a b) }
{
    if test { a } else { b }
}

// The larger of two numbers, compared as `less` does.
// Stays: std's `max` of two `u32` compares them as unsigned, which is slower, four at a time.
fn larger(a: u32, b: u32) -> u32
    requires { (a ≤ far_ray) × (b ≤ far_ray) }
    ensures { (result ≡ max a b) × (result ≤ far_ray) }
{
    choose(less(a, b), b, a)
}

// Offers one point's rays to the rows from one number to another: to the steep side, whose rays stand from the place `steep` on, where
// the point's difference in y, the gap, is larger than that in x, else to the flat side. `along` is the difference in x times 128,
// with the point's number.
// Stays: nine parameters: the parts of the arrays that the inner loop runs over. A struct of them would be made for this one function.
fn relax_rows(
    gaps: &[u32],
    start: usize,
    from: usize,
    to: usize,
    along: u32,
    complement: u32,
    least: &mut [u32],
    steep: usize,
    flat: usize,
)
    requires { spec.RelaxGiven gaps.now start from to along complement least.old steep flat }
    ensures { spec.Relaxed gaps.now start from to along steep flat least.old least.new }
{
    for r in from..to {
        let d = gaps[start + r];
        let steeper = less(along, d);
        let k = complement - d;
        let s = larger(least[steep + r], choose(steeper, k, 0));
        let f = larger(least[flat + r], choose(steeper, 0, k));
        least[steep + r] = s;
        least[flat + r] = f;
    }
}

// Points located among rows: the stored x of each, its distances to the rows, from the place j * 128 on for the point j, how many of the rows
// are below it, and the rows.
#[derive(Clone, Copy)]
pub struct Points<'a> {
    pub xs: &'a [u16],
    pub gaps: &'a [u32],
    pub ranks: &'a [usize],
    pub rows: &'a [u16],
    ghost given: { spec.ColumnGiven xs.now gaps.now ranks.now (length xs.now) (length rows.now) },
}

impl<'a> Points<'a> {
    // The least rays of the column x with one point more, the point j: it is north of the rows below it, south of the others, or on the flat side of both.
    fn relax_point(&self, j: usize, x: u16, least: &mut [u32], flat: usize)
        requires point_given { (j < length self.now.xs.now) × spec.FlatSide self.now.xs.now x j flat }
        requires at_rows { spec.AtRows self.now.xs.now self.now.gaps.now self.now.ranks.now x j (length self.now.rows.now) least.old }
        ensures { spec.AtRows self.now.xs.now self.now.gaps.now self.now.ranks.now x (j + 1) (length self.now.rows.now) least.new }
    {
        // Stays: `as`, since the number fits, as is proved; try_from would hand out an error that never comes.
        let along = u32::from(plane::apart(self.xs[j], x)) * SCALE + j as u32;
        let complement = FAR_RAY - along;
        let rank = self.ranks[j];
        let start = j * PLACES;
        relax_rows(
            self.gaps, start, 0, rank, along, complement, least, NORTH, flat,
        );
        let count = self.rows.len();
        relax_rows(
            self.gaps, start, rank, count, along, complement, least, SOUTH, flat,
        );
    }

    // Puts the least ray of each side at each row of the column x into an array with no ray. Returns nothing.
    pub fn nearest(&self, x: u16, least: &mut [u32])
        requires { spec.NoRays least.old }
        ensures { spec.AtRows self.now.xs.now self.now.gaps.now self.now.ranks.now x (length self.now.xs.now) (length self.now.rows.now) least.new }
    {
        for (j, point_x) in self.xs.iter().enumerate() {
            let flat = if *point_x < x { WEST } else { EAST };
            self.relax_point(j, x, least, flat);
        }
    }
}
