// One line of a text of coordinates (SPEC 9.7): the pin that it asks for.
#![tactic(auto)]

ghost use Rattle.std.specs.Prelude.{◌≡◌, take};
ghost use Rattle.arrays.specs.Set.{all};
ghost use Rattle.pin_line.specs.PinLines.{is_comment, text_length, is_plain, with_kind, of_numbers, of_text, pin_line_of};

use arguments::{Arguments, arguments_of};
use lines::LINE_LIMIT;

// Stays: a Result of an Option of a pin is no plainer than three kinds of lines side by side, which packing/specs/Claim.antt names.
// What a line asks for: nothing, as it is passed over; no pin, as it is none of these lines; a pin at a place, of a kind.
#[derive(Clone, Copy)]
pub enum PinLine {
    Passed,
    Error,
    Pin(i32, i32, u32),
}

// The kind of a device where a line names none: a sensor.
// Stays: a number, since a line may ask for any kind, and `add` refuses it (15).
const SENSOR: u32 = 0;

// Form feed.
const FORM_FEED: u8 = 12;

// Returns what a line asks for, which is given without its line feed.
pub fn parse(line: &[u8]) -> PinLine
    ensures { result ≡ pin_line_of line.now }
{
    if is_comment(line) {
        return PinLine::Passed;
    }
    if line.len() > LINE_LIMIT {
        return PinLine::Error;
    }
    of_text(text_of(line))
}

// Whether a line begins with `#`.
fn is_comment(line: &[u8]) -> bool
    ensures { result ≡ is_comment line.now }
{
    matches!(line, [b'#', ..])
}

// A line without the carriage return that ends it.
// Stays: a match of two arms beside its twin `body` of ascii; a function of both for any last byte would be no plainer.
fn text_of(line: &[u8]) -> &[u8]
    ensures { result.now ≡ take (text_length line.now) line.now }
{
    match line {
        [text @ .., b'\r'] => text,
        _ => line,
    }
}

// Whether all bytes are neither a form feed nor a carriage return.
fn all_plain(text: &[u8]) -> bool
    ensures { result ≡ all is_plain text.now }
{
    text.iter().all(|b| *b != FORM_FEED && *b != b'\r')
}

// What a line asks for by its bytes without the carriage return that ends it.
fn of_text(text: &[u8]) -> PinLine
    ensures { result ≡ of_text text.now }
{
    if !all_plain(text) {
        return PinLine::Error;
    }
    of_numbers(arguments_of(text))
}

// What the numbers of a line ask for.
#[tactic(auto, unfolding(crate::specs::PinLines::of_numbers))]
fn of_numbers(numbers: Option<Arguments>) -> PinLine
    ensures { result ≡ of_numbers numbers }
{
    match numbers {
        Some(Arguments::Zero) => PinLine::Passed,
        Some(Arguments::Two(x, y)) => PinLine::Pin(x, y, SENSOR),
        Some(Arguments::Three(x, y, kind)) => with_kind(x, y, kind),
        _ => PinLine::Error,
    }
}

// The pin at a place, of a kind that is not negative.
#[tactic(auto, unfolding(crate::specs::PinLines::with_kind))]
fn with_kind(x: i32, y: i32, kind: i32) -> PinLine
    ensures { result ≡ with_kind x y kind }
{
    match u32::try_from(kind) {
        Ok(kind) => PinLine::Pin(x, y, kind),
        Err(_) => PinLine::Error,
    }
}
