// A file in hexadecimal, and a text of several lines on one line.
ghost use Rattle.std.specs.Prelude.{◌≡◌, ◌+◌, ◌*◌, ◌≤◌, ◌<◌, length, take};
ghost use Rattle.arrays.specs.Paste.{Pasted, each};
ghost use Rattle.ascii.specs.Encoding as text;
ghost use Rattle.ascii.specs.Text.{fitting, file_head_room};

use super::decimal_field;
use arrays::paste::{put_byte, put_items};

// Room for what stands in front of a file in its line: a word and its length.
const HEAD_ROOM: usize = 64;

// The digit of a number below 16.
fn digit(n: u8) -> u8
    requires { n < 16 }
    ensures { result ≡ text.hex_digit n }
{
    if n < 10 { b'0' + n } else { b'a' + (n - 10) }
}

// The two digits of a byte.
fn pair(out: &mut [u8], at: usize, b: u8) -> usize
    requires { at + 2 ≤ length out.old }
    ensures pasted { Pasted (text.hex_pair b) out.old out.new at result }
    ensures upper_bound { result ≤ at + 2 }
{
    let next = put_byte(out, at, digit(b / 16));
    put_byte(out, next, digit(b % 16))
}

// The digits of all bytes.
fn pairs(bytes: &[u8], out: &mut [u8], at: usize) -> usize
    requires { at + 2 * length bytes.now ≤ length out.old }
    ensures { Pasted (each text.hex_pair bytes.now) out.old out.new at result }
{
    let mut next = at;
    for b in bytes {
        next = pair(out, next, *b);
    }
    next
}

// The line of a file at the front of `out`, which has to have room for two bytes for each byte of the file and 64 more. Returns
// its length; 0 where there is no room.
pub fn file_line(file: &[u8], out: &mut [u8]) -> usize
    ensures { Pasted (fitting (file_head_room + 2 * length file.now) out.old (text.file_text file.now))
        out.old out.new 0 result }
{
    if out.len() < HEAD_ROOM {
        return 0;
    }
    if (out.len() - HEAD_ROOM) / 2 < file.len() {
        return 0;
    }
    let a = put_items(out, 0, b"file");
    // Stays: `as`, since no From takes a usize to a u64.
    let b = decimal_field(out, a, file.len() as u64);
    let c = put_byte(out, b, b' ');
    pairs(file, out, c)
}

// A text without the line feed that ends it.
fn body(lines: &[u8]) -> &[u8]
    ensures { result.now ≡ take (text.body_length lines.now) lines.now }
{
    match lines {
        [body @ .., b'\n'] => body,
        _ => lines,
    }
}

// A byte of a text, or ` / ` for a line feed.
fn spread(out: &mut [u8], at: usize, b: u8) -> usize
    requires { at + 3 ≤ length out.old }
    ensures pasted { Pasted (text.spread b) out.old out.new at result }
    ensures upper_bound { result ≤ at + 3 }
{
    if b == b'\n' {
        return put_items(out, at, b" / ");
    }
    put_byte(out, at, b)
}

// A text at the front of `out`, each line feed as ` / `.
fn spread_all(lines: &[u8], out: &mut [u8]) -> usize
    requires { 3 * length lines.now ≤ length out.old }
    ensures { Pasted (each text.spread lines.now) out.old out.new 0 result }
{
    let mut next = 0;
    for b in lines {
        next = spread(out, next, *b);
    }
    next
}

// The lines of a text joined by ` / ` at the front of `out`, which has to have room for three times as many bytes. Returns the
// length; 0 where there is no room.
pub fn join_lines(lines: &[u8], out: &mut [u8]) -> usize
    ensures { Pasted (fitting (3 * length lines.now) out.old (text.joined_lines lines.now))
        out.old out.new 0 result }
{
    if out.len() / 3 < lines.len() {
        return 0;
    }
    spread_all(body(lines), out)
}
