// The plain file of a deck in working form (SPEC 7.4): its pins, no tap and no run, and the kinds if one is not a sensor (7.8).
#![tactic(auto)]

ghost use Rattle.std.specs.Prelude.{◌≡◌, ◌≤◌, length};
ghost use Rattle.arrays.specs.Paste.{Pasted};
ghost use Rattle.model.specs.DeviceKinds.{sensors_only};
ghost use Rattle.model.specs.Contents.{ValidContents};
ghost use Rattle.model.specs.File.{plain_file_of};
ghost use Rattle.ascii.specs.Text.{fitting};
ghost use Rattle.working.specs.WorkingDeck.{contents_of};
ghost use Rattle.plain_file.specs.Plain.{plain_room};

use buffer::file::put_parts;
use header::{PAIR_SIZE, POINT_SIZE, SHORTEST};
use points::MAX_PINS;
use points::kinds::{SENSOR, all_within};
use working::deck::WorkingDeck;

// The bytes of the longest plain file: 64 pins, and a kind for each.
pub const PLAIN_ROOM: usize = SHORTEST + POINT_SIZE * MAX_PINS + PAIR_SIZE + MAX_PINS;

// Whether all pins are sensors.
pub fn is_bare(w: WorkingDeck) -> bool
    ensures { result ≡ sensors_only (contents_of w).kinds }
{
    all_within(&w.kinds[..w.form.points.npins], SENSOR)
}

// Puts the plain file into a buffer that has room for the longest, and returns its length.
fn put_file(w: WorkingDeck, out: &mut [u8]) -> usize
    requires valid_contents { ValidContents (contents_of w) }
    requires plain_room_in_bounds { plain_room ≤ length out.old }
    ensures { Pasted (plain_file_of (contents_of w)) out.old out.new 0 result }
{
    let n = w.form.points.npins;
    put_parts(
        &w.form.points.pins[..n],
        &[],
        &[],
        &w.kinds[..n],
        is_bare(w),
        out,
    )
}

// Stays: 0 where there is no room, and no Option: it is the length of the empty text that `fitting` then leaves, and `packed_file` hands it on.
// Writes the plain file of a deck in working form to the front of `out`, which has to have room for PLAIN_ROOM bytes. Returns its length; 0
// where there is no room.
pub fn write_plain(w: WorkingDeck, out: &mut [u8]) -> usize
    requires valid_contents { ValidContents (contents_of w) }
    ensures { Pasted (fitting plain_room out.old (plain_file_of (contents_of w))) out.old out.new 0 result }
{
    if out.len() < PLAIN_ROOM {
        0
    } else {
        put_file(w, out)
    }
}
