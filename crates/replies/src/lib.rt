// Lines for the replies and answers of a deck's calls and questions, without the line feed.
#![tactic(auto)]

ghost use Rattle.std.specs.Prelude.{◌+◌, ◌≤◌, length};
ghost use Rattle.arrays.specs.Paste.{Pasted};
ghost use Rattle.replies.specs.Replies.{numbers_text, point_head, fall_text, ends_text, edge_text, candidate_text, column_text, reply_text, answer_text};
ghost use Rattle.replies.specs.Replies.{point_room, fall_room, ends_room, edge_room, column_room};
ghost use Rattle.ascii.specs.Text.{fitting, fields_room};
ghost use Rattle.ascii.specs.Line.{line_room};

use arrays::paste::put_items;
use ascii::line::{LINE_ROOM, number_line};
use ascii::{decimal_field, number_fields, signed_field};
use calls::Reply;
use columns::Candidate;
use questions::Answer;

// A word and three numbers.
fn numbers_line(out: &mut [u8], w: &[u8], a: u64, b: u64, c: u64) -> usize
    requires { length w.now + fields_room ≤ length out.old }
    ensures { Pasted (numbers_text w.now a b c) out.old out.new 0 result }
{
    let next = put_items(out, 0, w);
    number_fields(out, next, a, b, c)
}

// A word, the coordinates of a point, and a second word, which has its space in front.
fn point_head(out: &mut [u8], w: &[u8], x: i32, y: i32, v: &[u8]) -> usize
    requires { length w.now + point_room + length v.now ≤ length out.old }
    ensures pasted { Pasted (point_head w.now x y v.now) out.old out.new 0 result }
    ensures upper_bound { result ≤ length w.now + point_room + length v.now }
{
    let a = put_items(out, 0, w);
    let b = signed_field(out, a, x);
    let c = signed_field(out, b, y);
    put_items(out, c, v)
}

// A new Steiner point and the fall in length.
fn fall_line(out: &mut [u8], x: i32, y: i32, fall: u64) -> usize
    requires { fall_room ≤ length out.old }
    ensures { Pasted (fall_text x y fall) out.old out.new 0 result }
{
    let next = point_head(out, b"tap", x, y, b" fall");
    decimal_field(out, next, fall)
}

// The coordinates of two points.
fn ends_fields(out: &mut [u8], at: usize, x: i32, y: i32, u: i32, v: i32) -> usize
    requires { at + ends_room ≤ length out.old }
    ensures pasted { Pasted (ends_text x y u v) out.old out.new at result }
    ensures upper_bound { result ≤ at + ends_room }
{
    let a = signed_field(out, at, x);
    let b = signed_field(out, a, y);
    let c = signed_field(out, b, u);
    signed_field(out, c, v)
}

// An edge by its ends and its length.
fn edge_line(out: &mut [u8], x: i32, y: i32, u: i32, v: i32, n: u64) -> usize
    requires { edge_room ≤ length out.old }
    ensures { Pasted (edge_text x y u v n) out.old out.new 0 result }
{
    let a = put_items(out, 0, b"run");
    let b = ends_fields(out, a, x, y, u, v);
    decimal_field(out, b, n)
}

// The candidate of a column and its saving.
fn candidate_line(out: &mut [u8], x: i32, y: i32, saving: i32) -> usize
    requires { column_room ≤ length out.old }
    ensures { Pasted (candidate_text x y saving) out.old out.new 0 result }
{
    let next = point_head(out, b"column", x, y, b" saving");
    signed_field(out, next, saving)
}

// What a column answers.
fn column_line(out: &mut [u8], choice: Option<Candidate>) -> usize
    requires { column_room ≤ length out.old }
    ensures { Pasted (column_text choice) out.old out.new 0 result }
{
    match choice {
        None => put_items(out, 0, b"none"),
        Some(c) => candidate_line(out, c.x, c.y, c.saving),
    }
}

// Puts the line of a reply at the front of `out`, which has to have room for 128 bytes. Returns its length; 0 where there is no room.
#[tactic(auto, unfolding(crate::specs::Replies::reply_text))]
pub fn reply_line(reply: Reply, out: &mut [u8]) -> usize
    ensures { Pasted (fitting line_room out.old (reply_text reply)) out.old out.new 0 result }
{
    if out.len() < LINE_ROOM {
        return 0;
    }
    match reply {
        Reply::Done => put_items(out, 0, b"ok"),
        Reply::Refused(n) => number_line(out, b"refused", u64::from(n)),
        Reply::Finished => put_items(out, 0, b"finished"),
        Reply::Tap(x, y, fall) => fall_line(out, x, y, fall),
        Reply::Rounds(n) => number_line(out, b"rounds", n),
    }
}

// Puts the line of an answer at the front of `out`, which has to have room for 128 bytes. Returns its length; 0 where there is no room.
#[tactic(auto, unfolding(crate::specs::Replies::answer_text))]
pub fn answer_line(answer: Answer, out: &mut [u8]) -> usize
    ensures { Pasted (fitting line_room out.old (answer_text answer)) out.old out.new 0 result }
{
    if out.len() < LINE_ROOM {
        return 0;
    }
    match answer {
        Answer::Refused(n) => number_line(out, b"refused", u64::from(n)),
        Answer::Length(n) => number_line(out, b"length", n),
        Answer::Counts(pins, taps, runs) => numbers_line(out, b"counts", pins, taps, runs),
        Answer::Edge(x, y, u, v, n) => edge_line(out, x, y, u, v, n),
        Answer::NoEdge => put_items(out, 0, b"no run"),
        Answer::Degree(n) => number_line(out, b"degree", n),
        Answer::Kinds(a, b, c) => numbers_line(out, b"kinds", a, b, c),
        Answer::Column(choice) => column_line(out, choice),
    }
}
