// One line of a script of calls: the command that it asks for, and the bytes of a file in it. A line that asks for nothing and a
// line that is no command have their own variants, so every line has an answer.
#![tactic(auto)]

ghost use Rattle.std.specs.Prelude.{◌≡◌, length, take};
ghost use Rattle.script.specs.Line.{command_of, of_words, with_file, of_file, file_in_line};
ghost use Rattle.arrays.specs.Paste.{Pasted};
ghost use Rattle.words.specs.Words.{words_of};

use arguments::arguments_of;
use commands::{Command, of_numbers};
use lines::LINE_LIMIT;
use words::hex::{decode, is_hex};
use words::next;

// Returns the command of a line, which is given without its line feed.
pub fn parse(line: &[u8]) -> Command
    ensures { result ≡ command_of line.now }
{
    if line.len() > LINE_LIMIT {
        return Command::Error;
    }
    match line {
        [] | [b'#', ..] => Command::Blank,
        _ => by_words(line),
    }
}

// The command of a line's words: its name, and what is behind it.
fn by_words(line: &[u8]) -> Command
    ensures { result ≡ of_words (words_of line.now) }
{
    let Some((name, rest)) = next(line) else {
        return Command::Error;
    };
    match name {
        b"read" => with_file(rest),
        _ => of_numbers(name, arguments_of(rest)),
    }
}

// The command `read` with the words behind it: one word, which is the file.
fn with_file(words: &[u8]) -> Command
    ensures { result ≡ with_file (words_of words.now) }
{
    let Some((word, rest)) = next(words) else {
        return Command::Error;
    };
    match next(rest) {
        None => of_file(word),
        Some(_) => Command::Error,
    }
}

// The command `read` of a file in hexadecimal digits, `-` for no bytes.
#[tactic(auto, using(commands::proofs::Tests::compared), unfolding(crate::specs::Line::of_file))]
fn of_file(word: &[u8]) -> Command
    ensures { result ≡ of_file word.now }
{
    match word {
        b"-" => Command::Read,
        _ if is_hex(word) => Command::Read,
        _ => Command::Error,
    }
}

// Writes the bytes that the second word of a line stands for to the front of `out`, as many as it holds, and returns how many. A
// word that is not pairs of hexadecimal digits stands for none.
pub fn bytes_of(line: &[u8], out: &mut [u8]) -> usize
    ensures { Pasted (take (length out.old) (file_in_line line.now)) out.old out.new 0 result }
{
    let Some((_, rest)) = next(line) else {
        return 0;
    };
    let Some((word, _)) = next(rest) else {
        return 0;
    };
    if !is_hex(word) {
        return 0;
    }
    decode(word, out)
}
