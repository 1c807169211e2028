// The best crossing of a round: of the candidates (SPEC 4.4) the lowest that makes the tree shortest, if it makes it shorter at all; and that of one column.
//
// The points are two slices of stored coordinates, lower first, and `keys` has the keys of their tree.
#![tactic(auto)]

pub mod prepare;

ghost use Rattle.std.specs.Prelude.{◌≡◌, map, ◌≤◌, ◌<◌, length};
ghost use Rattle.plane.specs.Coordinate.{coordinate};
ghost use Rattle.model.specs.Tail.{longest_tail};
ghost use Rattle.model.specs.Round as round;
ghost use Rattle.regions.specs.Rows.{RowsGiven};
ghost use Rattle.search.specs.Search.{TreeGiven, points_of, answer_of, try_all, nothing_found, most_gain};

use plane::PLACES;
use prepare::{lines, prepare};
use regions::nearest::Points;
use regions::rows::blank;
use score::gain::FAR;
use search::found::{Crossing, Greatest};
use search::{all_columns, column};

// The best crossing of a tree of at least one point, by the search over all crossings. A crossing brings one run more, with its two tails, and has to
// spare them too: that is the bar that the search starts from.
fn search_all(xs: &[u16], ys: &[u16], keys: &[u64], tail: u64) -> Option<Crossing>
    requires { TreeGiven xs.now ys.now keys.now × (0 < length xs.now) × (tail ≤ longest_tail) }
    ensures { result ≡ answer_of (round.best tail (points_of xs.now ys.now)) }
{
    let mut columns = [0u16; PLACES];
    let width = lines(xs, &mut columns);
    let mut lines_of_rows = [0u16; PLACES];
    let count = lines(ys, &mut lines_of_rows);
    let rows = &lines_of_rows[..count];
    let mut table = blank();
    let mut gaps = blank();
    let mut ranks = [0usize; PLACES];
    prepare(xs, ys, keys, rows, &mut table, &mut gaps, &mut ranks);
    let points = Points {
        xs,
        gaps: &gaps,
        ranks: &ranks,
        rows,
    };
    let bar = Greatest {
        gain: FAR + 2 * tail,
        best: None,
    };
    all_columns(&points, &table, &columns[..width], bar).best
}

// Returns the crossing of x with one of the rows that has the greatest gain, the lowest of several, with that gain; none where there is no
// row. Every crossing gains more than 0, so that one is found whatever it saves.
pub fn greatest_in_column<'a>(
    xs: &'a [u16],
    ys: &[u16],
    keys: &[u64],
    x: u16,
    rows: &'a [u16],
) -> Greatest
    requires { TreeGiven xs.now ys.now keys.now × (0 < length xs.now) × RowsGiven rows.now }
    ensures value { result ≡ try_all (points_of xs.now ys.now) nothing_found (round.column (coordinate x) (map coordinate rows.now)) }
    ensures gain_le_most_gain { result.gain ≤ most_gain }
{
    let mut table = blank();
    let mut gaps = blank();
    let mut ranks = [0usize; PLACES];
    prepare(xs, ys, keys, rows, &mut table, &mut gaps, &mut ranks);
    let points = Points {
        xs,
        gaps: &gaps,
        ranks: &ranks,
        rows,
    };
    let start = Greatest {
        gain: 0,
        best: None,
    };
    column(&points, &table, x, start)
}

// Returns the crossing with the greatest saving, the lowest of several, or none where none saves more than 0, with tails.
pub fn best(xs: &[u16], ys: &[u16], keys: &[u64], tail: u64) -> Option<Crossing>
    requires { TreeGiven xs.now ys.now keys.now × (tail ≤ longest_tail) }
    ensures { result ≡ answer_of (round.best tail (points_of xs.now ys.now)) }
{
    if xs.is_empty() {
        return None;
    }
    search_all(xs, ys, keys, tail)
}
