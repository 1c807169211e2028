// What one line of a script does to a deck, and the text of its answer.
#![tactic(auto)]

ghost use Rattle.std.specs.Prelude.{◌≡◌, ◌≤◌, min, length};
ghost use Rattle.deck.specs.Calls.{called};
ghost use Rattle.deck.specs.Questions.{asked};
ghost use Rattle.deckfile.specs.Reading.{reading};
ghost use Rattle.commands.specs.declared.Command.TheVariants as command;
ghost use Rattle.commands.specs.Commands.{longest_file};
ghost use Rattle.script.specs.Line.{command_of, file_in_line};
ghost use Rattle.ascii.specs.Encoding.{joined_lines};
ghost use Rattle.ascii.specs.Line.{error_word};
ghost use Rattle.replies.specs.Replies.{answer_text};
ghost use Rattle.directions.specs.Directions.{direction_text};
ghost use Rattle.listing.specs.Whole.{deck_text};
ghost use Rattle.answer.specs.Play.{answer_room, stays, changes, write_text, call_for, question_for, line_of, played, Plays};

use ascii::encode::{file_line, join_lines};
use ascii::line::error_line;
use commands::{Change, Command, Direction, LONGEST_FILE, Query};
use deck::{Deck, Outcome};
use directions::direction_line;
use lines::LINE_LIMIT;
use listing::LISTING_ROOM;
use questions::Answer;
use replies::{answer_line, reply_line};

// Room for any answer: the lines of a listing joined take three times as many bytes at most.
pub const ANSWER_ROOM: usize = 3 * LISTING_ROOM;

// Room for the file in a line: a byte takes two digits.
const FILE_ROOM: usize = LINE_LIMIT / 2;

// Room for the longest file.
// Stays: `as`, since a constant calls no From.
const LONGEST_SIZE: usize = LONGEST_FILE as usize;

// The deck after a line, and how long its answer is, 0 for none.
#[derive(Clone, Copy)]
// Stays: 0 for no answer, and no Option, since that many bytes are printed (`Plays` holds it).
pub struct Played {
    pub next: Deck,
    pub size: usize,
}

// The answer of a call.
fn changed(o: Outcome, out: &mut [u8]) -> Played
    requires { answer_room ≤ length out.old }
    ensures { Plays (changes o) out.old out.new result }
{
    Played {
        next: o.next,
        size: reply_line(o.reply, out),
    }
}

// The answer of a question.
fn answered(d: Deck, a: Answer, out: &mut [u8]) -> Played
    requires { answer_room ≤ length out.old }
    ensures { Plays (stays d (answer_text a)) out.old out.new result }
{
    Played {
        next: d,
        size: answer_line(a, out),
    }
}

// The answer to what is no call.
fn failed(d: Deck, out: &mut [u8]) -> Played
    requires { answer_room ≤ length out.old }
    ensures { Plays (stays d error_word) out.old out.new result }
{
    Played {
        next: d,
        size: error_line(out),
    }
}

// Reads the file in a line.
fn read(line: &[u8], out: &mut [u8]) -> Played
    requires line_value { command_of line.now ≡ command.Read }
    requires answer_room_in_bounds { answer_room ≤ length out.old }
    ensures { Plays (changes (reading (file_in_line line.now))) out.old out.new result }
{
    let mut file = [0u8; FILE_ROOM];
    let n = script::bytes_of(line, &mut file);
    changed(deckfile::read(&file[..n]), out)
}

// A buffer for the longest file.
fn buffer() -> [u8; LONGEST_SIZE]
    ensures { length result ≡ longest_file }
{
    [0; LONGEST_SIZE]
}

// Writes the deck into a buffer of so many bytes, at most those of the longest file.
fn write(d: Deck, capacity: u32, out: &mut [u8]) -> Played
    requires { answer_room ≤ length out.old }
    ensures { Plays (stays d (write_text d (min capacity longest_file))) out.old out.new result }
{
    let mut file = buffer();
    // Stays: `as`, since no From takes a u32 to a usize.
    let most = capacity.min(LONGEST_FILE) as usize;
    match deckfile::write(d, &mut file[..most]) {
        Err(n) => answered(d, Answer::Refused(n), out),
        Ok(n) => Played {
            next: d,
            size: file_line(&file[..n], out),
        },
    }
}

// Answers a question on directions.
// Stays: one line beside its twin `answered`; a function of both would take a closure with a contract as long as this one.
fn direct(d: Deck, q: Direction, out: &mut [u8]) -> Played
    requires { answer_room ≤ length out.old }
    ensures { Plays (stays d (direction_text q)) out.old out.new result }
{
    Played {
        next: d,
        size: direction_line(q, out),
    }
}

// The listing of the deck as it is, on one line.
fn list(d: Deck, out: &mut [u8]) -> Played
    requires { answer_room ≤ length out.old }
    ensures { Plays (stays d (joined_lines (deck_text d))) out.old out.new result }
{
    let mut lines = [0u8; LISTING_ROOM];
    let n = listing::list(d, &mut lines);
    Played {
        next: d,
        size: join_lines(&lines[..n], out),
    }
}

// Makes a call.
#[tactic(auto, unfolding(crate::specs::Play::call_for))]
fn call(d: Deck, c: Change, out: &mut [u8]) -> Played
    requires { answer_room ≤ length out.old }
    ensures { Plays (changes (called d (call_for c))) out.old out.new result }
{
    match c {
        Change::Add(x, y, kind) => changed(d.add(x, y, kind), out),
        Change::Withdraw(x, y) => changed(d.withdraw(x, y), out),
        Change::Round => changed(d.round(), out),
        Change::Finish => changed(d.run_to_end(), out),
        Change::Tail(n) => changed(d.set_tail(n), out),
    }
}

// Asks a question.
#[tactic(auto, unfolding(crate::specs::Play::question_for))]
fn ask(d: Deck, q: Query, out: &mut [u8]) -> Played
    requires { answer_room ≤ length out.old }
    ensures { Plays (stays d (answer_text (asked d (question_for q)))) out.old out.new result }
{
    match q {
        Query::Length => answered(d, d.length(), out),
        Query::Counts => answered(d, d.counts(), out),
        // Stays: `as`, since no From takes a u32 to a usize.
        Query::Run(i) => answered(d, d.edge_at(i as usize), out),
        Query::Degree(x, y) => answered(d, d.degree_at(x, y), out),
        Query::Kinds => answered(d, d.kind_lengths(), out),
        Query::Column(x) => answered(d, d.column(x), out),
    }
}

// Does what a line asks for, by its command.
#[tactic(auto, unfolding(crate::specs::Play::line_of))]
fn obey(d: Deck, line: &[u8], c: Command, out: &mut [u8]) -> Played
    requires c_value { c ≡ command_of line.now }
    requires answer_room_in_bounds { answer_room ≤ length out.old }
    ensures { Plays (line_of d line.now c) out.old out.new result }
{
    match c {
        Command::Blank => Played { next: d, size: 0 },
        Command::Error => failed(d, out),
        Command::Read => read(line, out),
        Command::Write(n) => write(d, n, out),
        Command::Call(k) => call(d, k, out),
        Command::Ask(q) => ask(d, q, out),
        Command::Direct(q) => direct(d, q, out),
        Command::List => list(d, out),
    }
}

// Plays one line, which is given without its line feed. Returns the next deck, and how long the answer is at the front of `out`, 0 for none.
pub fn play(d: Deck, line: &[u8], out: &mut [u8]) -> Played
    requires { answer_room ≤ length out.old }
    ensures { Plays (played d line.now) out.old out.new result }
{
    let c = script::parse(line);
    obey(d, line, c, out)
}
