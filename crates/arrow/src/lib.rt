// What a display shows for a bay: an arrow, by the octant that the bay is in, and the glyph of an arrow. Every public function takes all values
// of its parameters.
#![tactic(auto)]

ghost use Rattle.std.specs.Prelude.{◌≡◌, ◌<◌, T};
ghost use Rattle.plane.specs.Point.{point};
ghost use Rattle.table.specs.Table as table;
ghost use Rattle.arrow.specs.Arrow as arrow;

use refusals::Refusal;
use table::{LIMIT, LOWEST, ROW, constant};

// The largest pitch; the smallest is 1.
const PITCH_LIMIT: i32 = 1000;

// Whether a pitch is taken.
fn is_pitch(pitch: i32) -> bool
    ensures { result ≡ arrow.is_pitch pitch }
{
    matches!(pitch, 1..=PITCH_LIMIT)
}

// How many whole pitches it is from one coordinate to another, toward zero.
fn pitches(from: i16, to: i16, pitch: i32) -> i32
    requires { T (arrow.is_pitch pitch) }
    ensures { result ≡ arrow.pitches from to pitch }
{
    (i32::from(to) - i32::from(from)) / pitch
}

// Whether the table has a difference.
fn is_in_table(d: i32) -> bool
    ensures { result ≡ table.in_table d }
{
    matches!(d, LOWEST..=LIMIT)
}

// Where a difference stands in its row, and its row in the table: −15 is the first.
fn offset(d: i32) -> usize
    requires { T (table.in_table d) }
    ensures value { result ≡ table.offset d }
    ensures upper_bound { result < table.row_length }
{
    // Stays: `as`, since the number fits, as is proved; try_from would hand out an error that never comes.
    (d + LIMIT) as usize
}

// The entry for a difference that the table has.
fn entry(dx: i32, dy: i32) -> u8
    requires t { T (table.in_table dx) }
    requires t_2 { T (table.in_table dy) }
    ensures { result ≡ table.entry dx dy }
{
    let table = constant();
    table[ROW * offset(dy) + offset(dx)]
}

// Returns the arrow, 0 to 8, that a display at x, y shows for a bay at u, v on a grid of this pitch (SPEC 3.4), or the number of a refusal (SPEC 8.5).
pub fn arrow(x: i16, y: i16, u: i16, v: i16, pitch: i32) -> Result<u8, u8>
    ensures { result ≡ arrow.arrow (point x y) (point u v) pitch }
{
    if !is_pitch(pitch) {
        return Err(u8::from(Refusal::BadPitch));
    }
    let dx = pitches(x, u, pitch);
    let dy = pitches(y, v, pitch);
    if is_in_table(dx) && is_in_table(dy) {
        Ok(entry(dx, dy))
    } else {
        Err(u8::from(Refusal::TooFar))
    }
}

// Returns the glyph of a number (SPEC 3.5), as its ASCII code.
// Stays: a match on the number, since the entry for C asks for the glyph of any number (`glyph`).
#[tactic(auto, unfolding(crate::specs::Arrow::glyph))]
pub fn glyph(n: u32) -> u8
    ensures { result ≡ arrow.glyph n }
{
    match n {
        0 => b'E',
        1 => b'N',
        2 => b'n',
        3 => b'W',
        4 => b'w',
        5 => b'S',
        6 => b's',
        7 => b'e',
        8 => b'.',
        _ => b'?',
    }
}
