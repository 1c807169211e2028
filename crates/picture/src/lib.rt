// The picture of a deck in SVG (SPEC 9.9), written to the caller's slice.
#![tactic(auto)]

ghost use Rattle.std.specs.Prelude.{◌≡◌, map, ◌+◌, ◌*◌, ◌≤◌, length};
ghost use Rattle.arrays.specs.Paste.{Pasted, each};
ghost use Rattle.plane.specs.Code.{point_of};
ghost use Rattle.model.specs.State.{Valid, points};
ghost use Rattle.model.specs.Tail.{longest_tail};
ghost use Rattle.model.specs.Contents.{ValidContents};
ghost use Rattle.model.specs.Question.{listed};
ghost use Rattle.ascii.specs.Text.{fitting};
ghost use Rattle.working.specs.InOrder.{state_of};
ghost use Rattle.working.specs.WorkingDeck.{contents_of};
ghost use Rattle.frame.specs.Frame.{box_of};
ghost use Rattle.frame.specs.Stored.{box_in};
ghost use Rattle.drawing.specs.Rooms.{symbol_room};
ghost use Rattle.picture.specs.Picture.{run_texts, symbol_texts, tap_text, point_texts, picture_of};
ghost use Rattle.picture.specs.Rooms.{picture_room, runs_room, points_room};

use arrays::paste::put_items;
use drawing::{TAP_SYMBOL, put_foot, put_head, put_run, put_symbol};
use edges::{edge_at, edge_numbers};
use frame::Frame;
use measures::measure;
use working::Working;
use working::deck::WorkingDeck;

// Room for every picture: the head, 125 runs, 64 pins, 62 Steiner points and the foot.
pub const PICTURE_ROOM: usize = 51200;

// The frame of a deck's points.
fn frame_for(w: Working) -> Frame
    ensures { box_in result ≡ box_of (points (state_of w)) }
{
    Frame::around(&w.xs[..w.npoints], &w.ys[..w.npoints])
}

// The paths of the runs of a working form, from place `at` on.
fn put_runs(out: &mut [u8], at: usize, f: Frame, w: Working, tail: u64) -> usize
    requires runs_room_in_bounds { at + runs_room ≤ length out.old }
    requires valid { Valid (state_of w) }
    requires tail_le_longest_tail { tail ≤ longest_tail }
    ensures pasted { Pasted (run_texts tail (box_in f) (listed (state_of w))) out.old out.new at result }
    ensures upper_bound { result ≤ at + runs_room }
{
    let ends = edge_numbers(w);
    let mut next = at;
    for i in 0..w.nkeys {
        let e = edge_at(w, &ends, i, tail);
        next = put_run(out, next, f, e.low, e.high, e.length);
    }
    next
}

// The symbols of pins, given by their kinds and their codes, from place `at` on.
fn put_pins(out: &mut [u8], at: usize, f: Frame, kinds: &[u8], codes: &[u64]) -> usize
    requires room { at + symbol_room * length kinds.now ≤ length out.old }
    requires same_length { length kinds.now ≡ length codes.now }
    ensures pasted { Pasted (symbol_texts (box_in f) kinds.now (map point_of codes.now)) out.old out.new at result }
    ensures upper_bound { result ≤ at + symbol_room * length kinds.now }
{
    let mut next = at;
    for (kind, k) in kinds.iter().zip(codes) {
        next = put_symbol(out, next, f, *kind, *k);
    }
    next
}

// The symbols of Steiner points, given by their codes, from place `at` on.
fn put_taps(out: &mut [u8], at: usize, f: Frame, codes: &[u64]) -> usize
    requires { at + symbol_room * length codes.now ≤ length out.old }
    ensures pasted { Pasted (each (tap_text (box_in f)) codes.now) out.old out.new at result }
    ensures upper_bound { result ≤ at + symbol_room * length codes.now }
{
    let mut next = at;
    for k in codes {
        next = put_symbol(out, next, f, TAP_SYMBOL, *k);
    }
    next
}

// The symbols of all points: the pins by their kinds, then the Steiner points.
fn put_points(out: &mut [u8], at: usize, f: Frame, d: WorkingDeck) -> usize
    requires points_room_in_bounds { at + points_room ≤ length out.old }
    requires valid_contents { ValidContents (contents_of d) }
    ensures pasted { Pasted (point_texts (box_in f) (contents_of d)) out.old out.new at result }
    ensures upper_bound { result ≤ at + points_room }
{
    let points = d.form.points;
    let pins = points.npins;
    let next = put_pins(out, at, f, &d.kinds[..pins], &points.pins[..pins]);
    put_taps(out, next, f, &points.steiner[..points.nsteiner])
}

// The picture of a deck in working form at the front of `out`, which has to have room for PICTURE_ROOM bytes. Returns its length; 0 where there is no
// room.
pub fn draw_working(d: WorkingDeck, out: &mut [u8]) -> usize
    requires valid_contents { ValidContents (contents_of d) }
    ensures { Pasted (fitting picture_room out.old (picture_of (contents_of d))) out.old out.new 0 result }
{
    if out.len() < PICTURE_ROOM {
        return 0;
    }
    let f = frame_for(d.form);
    let m = measure(d);
    let runs = put_head(out, f);
    let end = put_runs(out, runs, f, d.form, d.tail);
    let symbols = put_items(out, end, b"</g>\n");
    let foot = put_points(out, symbols, f, d);
    put_foot(out, foot, f, m.pins, m.steiner, m.length)
}
