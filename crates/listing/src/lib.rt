// The listing of a deck, in ASCII, written to the caller's slice.
#![tactic(auto)]

ghost use Rattle.std.specs.Prelude.{◌+◌, ◌≤◌, length};
ghost use Rattle.model.specs.State.{Valid};
ghost use Rattle.model.specs.Contents.{ValidContents};
ghost use Rattle.model.specs.Listing as model;
ghost use Rattle.arrays.specs.Paste.{Pasted};
ghost use Rattle.working.specs.InOrder.{state_of};
ghost use Rattle.working.specs.WorkingDeck.{contents_of};
ghost use Rattle.ascii.specs.Text.{fitting};
ghost use Rattle.ascii.specs.Line.{line_room};
ghost use Rattle.listing.specs.Whole.{listing_room, deck_text};

use ascii::line::LINE_ROOM;
use ascii::refused_line;
use deck::Deck;
use deck::check::check;
use measures::{kind_lengths, measure};
use refusals::Refusal;
use rows::{numbers_line, run_lines, tap_lines};
use working::Working;
use working::deck::WorkingDeck;

// Room for every listing: the head line, the line of kinds, 62 tap lines and 125 run lines, at most 7,878 bytes. The rest is for further fields of a
// point.
pub const LISTING_ROOM: usize = 8704;

// What a program prints for a deck file: so many bytes on standard output, or, where the file was refused, so many on standard error.
pub type Printed = Result<usize, usize>;

// The tap lines of a working form.
fn write_taps(w: Working, out: &mut [u8], at: usize) -> usize
    requires at_in_bounds { at + 1148 ≤ length out.old }
    requires valid { Valid (state_of w) }
    ensures pasted { Pasted (model.tap_lines (state_of w).steiner) out.old out.new at result }
    ensures upper_bound { result ≤ at + 1116 }
{
    tap_lines(out, at, &w.points.steiner[..w.points.nsteiner])
}

// The listing of a deck in working form at the front of `out`, which has to have room for LISTING_ROOM bytes. Returns its length; 0 where
// there is no room.
pub fn list_working(d: WorkingDeck, out: &mut [u8]) -> usize
    requires valid_contents { ValidContents (contents_of d) }
    ensures { Pasted (fitting listing_room out.old (model.listing (contents_of d))) out.old out.new 0 result }
{
    if out.len() < LISTING_ROOM {
        return 0;
    }
    let m = measure(d);
    let lengths = kind_lengths(d);
    let kinds = numbers_line(out, 0, b"deck", m.pins, m.steiner, m.length);
    let taps = numbers_line(out, kinds, b"kinds", lengths[0], lengths[1], lengths[2]);
    let runs = write_taps(d.form, out, taps);
    run_lines(out, runs, d.form, d.tail)
}

// The listing of a deck at the front of `out`, or the line of refusal 11 where the deck is not sound; `out` has to have room for LISTING_ROOM
// bytes. Returns its length; 0 where there is no room.
pub fn list(d: Deck, out: &mut [u8]) -> usize
    ensures { Pasted (fitting listing_room out.old (deck_text d)) out.old out.new 0 result }
{
    if out.len() < LISTING_ROOM {
        return 0;
    }
    let Some(w) = check(d) else {
        return refused_line(out, 0, u64::from(u8::from(Refusal::NotSound)));
    };
    list_working(w, out)
}

// The line of a refusal at the front of `out`, which has to have room for LINE_ROOM bytes. Returns its length; 0 where there is no room.
pub fn list_refusal(n: u8, out: &mut [u8]) -> usize
    ensures { Pasted (fitting line_room out.old (model.refused_line n)) out.old out.new 0 result }
{
    if out.len() < LINE_ROOM {
        return 0;
    }
    refused_line(out, 0, u64::from(n))
}
