// What is printed for a text of coordinates: the plain file of its deck, or the line of its first fault.
ghost use Rattle.std.specs.Prelude.{◌≤◌, length};
ghost use Rattle.arrays.specs.Paste.{Pasted};
ghost use Rattle.ascii.specs.Text.{fitting};
ghost use Rattle.plain_file.specs.Plain.{plain_room};
ghost use Rattle.packing.specs.Held.{pack_of, Packs};
ghost use Rattle.packing.specs.Printed.{fault_room, line_head, error_at, refused_at, fault_text, packed_file};

use super::{Fault, Packing};
use arrays::paste::put_items;
use ascii::{decimal_field, refused_line};
use plain_file::write_plain;

// Room for the line of a fault.
pub const FAULT_ROOM: usize = 64;

// The number of a line, between the word and a colon.
fn line_head(out: &mut [u8], n: u64) -> usize
    requires { fault_room ≤ length out.old }
    ensures pasted { Pasted (line_head n) out.old out.new 0 result }
    ensures upper_bound { result ≤ 27 }
{
    let number = put_items(out, 0, b"line");
    let reason = decimal_field(out, number, n);
    put_items(out, reason, b": ")
}

// A line that is none of these lines.
fn error_at(out: &mut [u8], n: u64) -> usize
    requires { fault_room ≤ length out.old }
    ensures { Pasted (error_at n) out.old out.new 0 result }
{
    let next = line_head(out, n);
    put_items(out, next, b"error\n")
}

// A line whose pin is refused by m.
fn refused_at(out: &mut [u8], n: u64, m: u64) -> usize
    requires { fault_room ≤ length out.old }
    ensures { Pasted (refused_at n m) out.old out.new 0 result }
{
    let a = line_head(out, n);
    refused_line(out, a, m)
}

// The line of a fault at the front of `out`, which has to have room for FAULT_ROOM bytes; nothing for no fault. Returns its length; 0 where
// there is no room.
pub fn fault_line(f: Option<Fault>, out: &mut [u8]) -> usize
    ensures { Pasted (fitting fault_room out.old (fault_text f)) out.old out.new 0 result }
{
    if out.len() < FAULT_ROOM {
        return 0;
    }
    match f {
        None => 0,
        Some(Fault::Error(n)) => error_at(out, n),
        Some(Fault::Refused(n, m)) => refused_at(out, n, u64::from(m)),
    }
}

// The plain file of the deck at the front of `out`, which has to have room for PLAIN_ROOM bytes; nothing after a fault. Returns its length; 0
// where there is no room.
pub fn packed_file(p: Packing, out: &mut [u8]) -> usize
    requires { Packs p }
    ensures { Pasted (fitting plain_room out.old (packed_file (pack_of p))) out.old out.new 0 result }
{
    if p.fault.is_some() {
        return 0;
    }
    write_plain(p.deck, out)
}
