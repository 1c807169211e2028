// Deck files (SPEC 7): reading one, and writing one into a buffer. A deck is checked and its tree built once: whoever
// goes on with a file reads and writes its deck in working form, and `read` and `write` do the same for decks.
#![tactic(auto)]

pub mod answer;
mod reader;

ghost use Rattle.std.specs.Prelude.{◌≡◌};
ghost use Rattle.model.specs.Contents.{ValidContents};
ghost use Rattle.model.specs.File.{read_file};
ghost use Rattle.working.specs.WorkingDeck.{contents_of};
ghost use Rattle.deckfile.specs.Reading.{reading};
ghost use Rattle.deckfile.specs.ReadWorking.{TakenAs, ReadTo};
ghost use Rattle.deckfile.specs.Writing.{stored_answer, stored_buffer, written, buffer_after};

use calls::{Changed, Reply};
use deck::check::check;
use deck::{Deck, Outcome};
use header::{PINS, POINT_SIZE, is_headed, is_laid_out, is_whole, size};
use points::MAX_PINS;
use reader::{refuse, working_of_file};
use refusals::Refusal;
use sections::codes::decode_points;
use sections::file::FileBytes;
use working::deck::WorkingDeck;
use writer::{file_length, put_file};

// The bytes of the longest file (SPEC 7.5).
pub const LONGEST: usize = header::LONGEST;

// Room to read a file: one byte more, so that a longer one is seen.
pub const READ_ROOM: usize = LONGEST + 1;

// Takes a file. Returns its deck in working form, or the number of the refusal, in the order 1 to 6 and 15.
#[inline(never)]
pub fn take_file(file: &[u8]) -> Result<WorkingDeck, u8>
    ensures { TakenAs (read_file file.now) result }
{
    if !is_headed(file) {
        return refuse(Refusal::NotADeckFile);
    }
    if !is_laid_out(file) {
        return refuse(Refusal::WrongLayout);
    }
    if !is_whole(file) {
        return refuse(Refusal::CutSection);
    }
    if MAX_PINS < size(file, PINS) / POINT_SIZE {
        return refuse(Refusal::TooManyPins);
    }
    let checked = FileBytes { bytes: file };
    let Some(found) = decode_points(&checked) else {
        return refuse(Refusal::BadPoints);
    };
    working_of_file(&checked, &found)
}

// Reads a file. Returns its deck in working form and the reply: done, or a refusal, in the order 1 to 6 and 15, with an empty deck.
pub fn read_working(file: &[u8]) -> Changed
    ensures { ReadTo (read_file file.now) result }
{
    match take_file(file) {
        Ok(working) => Changed {
            working,
            reply: Reply::Done,
        },
        Err(n) => Changed {
            working: WorkingDeck::empty(),
            reply: Reply::Refused(n),
        },
    }
}

// Reads a file. Returns its deck and the reply: done, or a refusal, in the order 1 to 6 and 15, with an empty deck.
pub fn read(file: &[u8]) -> Outcome
    ensures { result ≡ reading file.now }
{
    Outcome::from(read_working(file))
}

// Writes the file of a deck in working form to the front of a buffer. Returns its length, or refusal 12 where there is no room; a refusal
// keeps every byte.
pub fn write_working(w: WorkingDeck, out: &mut [u8]) -> Result<usize, u8>
    requires { ValidContents (contents_of w) }
    ensures value { result ≡ stored_answer (contents_of w) out.old }
    ensures out_after { out.new ≡ stored_buffer (contents_of w) out.old }
{
    if out.len() < file_length(w) {
        return Err(u8::from(Refusal::NoRoom));
    }
    Ok(put_file(w, out))
}

// Writes the file of a deck to the front of a buffer. Returns its length, or a refusal, in the order 11, 12; a refusal keeps every byte.
pub fn write(d: Deck, out: &mut [u8]) -> Result<usize, u8>
    ensures value { result ≡ written d out.old }
    ensures out_after { out.new ≡ buffer_after d out.old }
{
    let Some(w) = check(d) else {
        return Err(u8::from(Refusal::NotSound));
    };
    write_working(w, out)
}
