// Lines of one word, and of a word and a number, at the front of a slice, without the line feed.
ghost use Rattle.std.specs.Prelude.{◌+◌, ◌≤◌, length};
ghost use Rattle.arrays.specs.Paste.{Pasted};
ghost use Rattle.ascii.specs.Text.{fitting, field_room};
ghost use Rattle.ascii.specs.Line.{line_room, error_word, number_text};

use super::decimal_field;
use arrays::paste::put_items;

// Room for any line.
pub const LINE_ROOM: usize = 128;

// Puts a word and a number at the front of `out`. Returns the length of the line.
pub fn number_line(out: &mut [u8], w: &[u8], n: u64) -> usize
    requires { length w.now + field_room ≤ length out.old }
    ensures { Pasted (number_text w.now n) out.old out.new 0 result }
{
    let next = put_items(out, 0, w);
    decimal_field(out, next, n)
}

// Stays: a line for which there is no room is 0 bytes long, here and in every function with a text that is `fitting`, and not a None:
// the clause `Pasted (fitting ..)` gives its callers the length 0 for it.
// Puts `error` at the front of `out`, which has to have room for 128 bytes. Returns its length; 0 where there is no room.
pub fn error_line(out: &mut [u8]) -> usize
    ensures { Pasted (fitting line_room out.old error_word) out.old out.new 0 result }
{
    if out.len() < LINE_ROOM {
        return 0;
    }
    put_items(out, 0, b"error")
}
