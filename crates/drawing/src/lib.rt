// The parts of a picture in SVG (SPEC 9.9), each put from a place of a slice on: its head and its foot, a path for a run and a symbol for a point.
// Each function returns the place behind what it put.
#![tactic(auto)]

ghost use Rattle.std.specs.Prelude.{◌≡◌, ◌+◌, ◌≤◌, length};
ghost use Rattle.arrays.specs.Paste.{Pasted};
ghost use Rattle.plane.specs.Code.{point_of};
ghost use Rattle.frame.specs.Stored.{box_in};
ghost use Rattle.drawing.specs.Elements.{head_text, run_text, symbol_template, symbol_text, foot_text};
ghost use Rattle.drawing.specs.Rooms.{head_room, run_room, template_room, symbol_room, foot_room};

use arrays::paste::put_items;
use frame::{Frame, SCALE};
use plane::codes::{x_of, y_of};
use template::fill;

// The width of a picture, and its height without that of the box, as multiples of the longer side of the box.
const PICTURE_WIDTH: u64 = 440;

const PICTURE_REST: u64 = 120;

// The symbol of a Steiner point; those of pins are numbered by their kinds, 0 to 2.
// Stays: a number and no enum, since `symbol_text` takes every number, and those of pins are their kinds as bytes.
pub const TAP_SYMBOL: u8 = 3;

// The symbols, to be used by their names.
const DEFINITIONS: &[u8] = b"<circle id='sensor' r='2' fill='white' stroke='black'/>\n\
    <rect id='display' x='-3' y='-3' width='6' height='6' fill='blue'/>\n\
    <path id='controller' d='M-4 0L0 -4L4 0L0 4Z' fill='red'/>\n\
    <circle id='tap' r='2'/>\n";

// The symbols with their names.
const LEGEND: &[u8] = b"<use href='#sensor' x='30' y='60'/><text x='40' y='65'>sensor</text>\n\
    <use href='#display' x='130' y='60'/><text x='140' y='65'>display</text>\n\
    <use href='#controller' x='230' y='60'/><text x='240' y='65'>controller</text>\n\
    <use href='#tap' x='350' y='60'/><text x='360' y='65'>tap</text>\n";

// Puts the head at the front: the frame, the symbols, and how runs are drawn.
pub fn put_head(out: &mut [u8], f: Frame) -> usize
    requires { head_room ≤ length out.old }
    ensures pasted { Pasted (head_text (box_in f)) out.old out.new 0 result }
    ensures upper_bound { result ≤ head_room }
{
    let u = f.long_side();
    let w = PICTURE_WIDTH * u;
    let h = SCALE * u64::from(f.height) + PICTURE_REST * u;
    let symbols = fill(
        out,
        0,
        b"<svg xmlns='http://www.w3.org/2000/svg' viewBox='0 0 % %'>\n<defs>\n",
        &[w, h],
    );
    let ground = put_items(out, symbols, DEFINITIONS);
    fill(
        out,
        ground,
        b"</defs>\n<rect width='%' height='%' fill='white'/>\n<g fill='none' stroke='gray' stroke-width='%'>\n",
        &[w, h, u],
    )
}

// Puts the path of a run, given by the codes of its ends and its length: from the lower end along x, then along y.
pub fn put_run(out: &mut [u8], at: usize, f: Frame, low: u64, high: u64, distance: u64) -> usize
    requires { at + run_room ≤ length out.old }
    ensures pasted { Pasted (run_text (box_in f) (point_of low) (point_of high) distance) out.old out.new at result }
    ensures upper_bound { result ≤ at + run_room }
{
    let x = f.across(x_of(low));
    let y = f.down(y_of(low));
    let along = f.across(x_of(high));
    let up = f.down(y_of(high));
    fill(
        out,
        at,
        b"<path d='M% %H%V%'><title>% cm</title></path>\n",
        &[x, y, along, up, distance],
    )
}

// The template of a symbol by its number.
// Stays: a number and not an enum, since `symbol_text` in the contract of put_symbol takes every number, and 3 to 255 all name the tap.
fn template_of(symbol: u8) -> &'static [u8]
    ensures text { result.now ≡ symbol_template symbol }
    ensures upper_bound { length result.now ≤ template_room }
{
    match symbol {
        0 =>
            b"<use href='#sensor' transform='translate(% %)scale(%)'><title>sensor @ @</title></use>\n",
        1 =>
            b"<use href='#display' transform='translate(% %)scale(%)'><title>display @ @</title></use>\n",
        2 =>
            b"<use href='#controller' transform='translate(% %)scale(%)'><title>controller @ @</title></use>\n",
        _ => b"<use href='#tap' transform='translate(% %)scale(%)'><title>tap @ @</title></use>\n",
    }
}

// Puts the symbol of a point, given by its code.
pub fn put_symbol(out: &mut [u8], at: usize, f: Frame, symbol: u8, k: u64) -> usize
    requires { at + symbol_room ≤ length out.old }
    ensures pasted { Pasted (symbol_text (box_in f) symbol (point_of k)) out.old out.new at result }
    ensures upper_bound { result ≤ at + symbol_room }
{
    let x = x_of(k);
    let y = y_of(k);
    let numbers = [
        f.across(x),
        f.down(y),
        f.long_side(),
        u64::from(x),
        u64::from(y),
    ];
    fill(out, at, template_of(symbol), &numbers)
}

// Puts the foot: the legend, and the caption with the numbers of pins and Steiner points and the length.
pub fn put_foot(out: &mut [u8], at: usize, f: Frame, pins: u64, steiner: u64, total: u64) -> usize
    requires { at + foot_room ≤ length out.old }
    ensures pasted { Pasted (foot_text (box_in f) pins steiner total) out.old out.new at result }
    ensures upper_bound { result ≤ at + foot_room }
{
    let names = fill(
        out,
        at,
        b"<g transform='translate(0 %)scale(%)' font-family='sans-serif' font-size='14'>\n",
        &[SCALE * u64::from(f.height), f.long_side()],
    );
    let caption = put_items(out, names, LEGEND);
    fill(
        out,
        caption,
        b"<text x='30' y='100'>pins %, taps %, length % cm</text>\n</g>\n</svg>\n",
        &[pins, steiner, total],
    )
}
