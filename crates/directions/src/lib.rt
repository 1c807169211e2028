// Answers to questions on directions, for which no deck is needed: the line of an octant, of an arrow, of a glyph.
#![tactic(auto)]

ghost use Rattle.std.specs.Prelude.{◌≡◌, ◌≤◌, length};
ghost use Rattle.arrays.specs.Paste.{Pasted};
ghost use Rattle.ascii.specs.Text.{fitting};
ghost use Rattle.ascii.specs.Line.{line_room, number_text};
ghost use Rattle.directions.specs.Directions.{octant_word, arrow_room, octant_text, arrow_text, indication_text, glyph_of, glyph_text, direction_text};

use arrays::paste::{put_byte, put_items};
use ascii::decimal_field;
use ascii::line::{LINE_ROOM, error_line, number_line};
use commands::Direction;
use octants::{NO_OCTANT, octant};

// Puts `octant N` at the front of `out`, which has to have room for 128 bytes. Returns its length; 0 where there is no room.
fn octant_line(n: u64, out: &mut [u8]) -> usize
    ensures { Pasted (fitting line_room out.old (number_text octant_word n)) out.old out.new 0 result }
{
    if out.len() < LINE_ROOM {
        return 0;
    }
    number_line(out, b"octant", n)
}

// An arrow and its glyph.
fn arrow_line(out: &mut [u8], n: u8) -> usize
    requires { arrow_room ≤ length out.old }
    ensures { Pasted (arrow_text n) out.old out.new 0 result }
{
    let g = arrow::glyph(u32::from(n));
    let a = put_items(out, 0, b"arrow");
    let b = decimal_field(out, a, u64::from(n));
    let c = put_byte(out, b, b' ');
    put_byte(out, c, g)
}

// Puts the line of an arrow, or of its refusal, at the front of `out`, which has to have room for 128 bytes. Returns its length; 0 where there is
// no room.
fn indication_line(indication: Result<u8, u8>, out: &mut [u8]) -> usize
    ensures { Pasted (fitting line_room out.old (indication_text indication)) out.old out.new 0 result }
{
    if out.len() < LINE_ROOM {
        return 0;
    }
    match indication {
        Ok(n) => arrow_line(out, n),
        Err(n) => number_line(out, b"refused", u64::from(n)),
    }
}

// Puts `glyph G` at the front of `out`, which has to have room for 128 bytes. Returns its length; 0 where there is no room.
fn glyph_line(g: u8, out: &mut [u8]) -> usize
    ensures { Pasted (fitting line_room out.old (glyph_text g)) out.old out.new 0 result }
{
    if out.len() < LINE_ROOM {
        return 0;
    }
    let a = put_items(out, 0, b"glyph ");
    put_byte(out, a, g)
}

// The line of an octant, or of an error where there is none.
fn octant_answer(x: i32, y: i32, out: &mut [u8]) -> usize
    ensures { Pasted (fitting line_room out.old (octant_text x y)) out.old out.new 0 result }
{
    let k = octant(x, y);
    if k == NO_OCTANT {
        return error_line(out);
    }
    octant_line(u64::from(k), out)
}

// The glyph of any number of 32 bits.
#[tactic(auto, unfolding(crate::specs::Directions::glyph_of))]
fn glyph_of(n: i32) -> u8
    ensures { result ≡ glyph_of n }
{
    match u32::try_from(n) {
        Ok(n) => arrow::glyph(n),
        Err(_) => b'?',
    }
}

// Puts the line of the answer at the front of `out`, which has to have room for 128 bytes. Returns its length; 0 where there is no room.
pub fn direction_line(q: Direction, out: &mut [u8]) -> usize
    ensures { Pasted (fitting line_room out.old (direction_text q)) out.old out.new 0 result }
{
    match q {
        Direction::Octant(x, y) => octant_answer(x, y, out),
        Direction::Arrow(x, y, u, v, pitch) => indication_line(
            arrow::arrow(x, y, u, v, pitch),
            out,
        ),
        Direction::Glyph(n) => glyph_line(glyph_of(n), out),
    }
}
