// What the firmware of a display calls: the arrow to a bay, and its glyph.
#![tactic(auto)]

ghost use Rattle.std.specs.Prelude.{◌≡◌};
ghost use Rattle.plane.specs.Point.{point};
ghost use Rattle.arrow.specs.Arrow as arrow;
ghost use Rattle.display.specs.Entry.{indication_number};

use arrow::{arrow, glyph};

// Returns the arrow that a display shows for a bay on a grid of this pitch, 0 to 8, or the number of the refusal (SPEC 10.4).
// Stays: one number for an arrow and for a refusal, which is the number that C gets (SPEC 10.4).
pub fn display_arrow(x: i16, y: i16, u: i16, v: i16, pitch: i32) -> u32
    ensures { result ≡ indication_number (arrow.arrow (point x y) (point u v) pitch) }
{
    match arrow(x, y, u, v, pitch) {
        Ok(n) | Err(n) => u32::from(n),
    }
}

// Returns the glyph of a number as its ASCII code (SPEC 10.4).
pub fn display_glyph(n: u32) -> u8
    ensures { result ≡ arrow.glyph n }
{
    glyph(n)
}
