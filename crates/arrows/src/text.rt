// What the program prints: the numbers of the table of arrows, worked out by the octants.
ghost use Rattle.std.specs.Prelude.{◌+◌, ◌*◌, ◌≤◌, length};
ghost use Rattle.streams.specs.Counts.{IsPrefixLen};
ghost use Rattle.arrays.specs.Paste.{Pasted, each};
ghost use Rattle.table.specs.Table.{arrow_table};
ghost use Rattle.ascii.specs.Text.{fitting};
ghost use Rattle.arrows.specs.Text.{line_room, text_room, number_line};

use arrays::paste::put_byte;
use ascii::decimal;
use table::{ARROW_COUNT, worked_out};

// Room for a number of 64 bits and a line feed.
const LINE_ROOM: usize = 21;

// Room for the text.
pub const TEXT_ROOM: usize = LINE_ROOM * ARROW_COUNT;

// A number and a line feed from place `at` on.
fn number_line(out: &mut [u8], at: usize, n: u8) -> usize
    requires { at + line_room ≤ length out.old }
    ensures pasted { Pasted (number_line n) out.old out.new at result }
    ensures upper_bound { result ≤ at + line_room }
{
    let next = decimal(out, at, u64::from(n));
    put_byte(out, next, b'\n')
}

// Numbers at the front of `out`, one to a line.
fn number_lines(numbers: &[u8], out: &mut [u8]) -> usize
    requires { line_room * length numbers.now ≤ length out.old }
    ensures { Pasted (each number_line numbers.now) out.old out.new 0 result }
{
    let mut next = 0;
    for &n in numbers {
        next = number_line(out, next, n);
    }
    next
}

// Puts the numbers of the table at the front of `out`, one to a line, which has to have room for TEXT_ROOM bytes. Returns how many bytes they take;
// 0 where there is no room.
pub fn list_arrows(out: &mut [u8]) -> usize
    ensures pasted { Pasted (fitting text_room out.old (each number_line arrow_table)) out.old out.new 0 result }
    ensures prefix_len { IsPrefixLen result out.new }
{
    if out.len() < TEXT_ROOM {
        return 0;
    }
    let numbers = worked_out();
    number_lines(&numbers, out)
}
