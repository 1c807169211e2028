// What the programs for a deck file share: the file is read from standard input, and the text that a function makes of it is printed.
#![tactic(auto)]

ghost use Rattle.listing.specs.Printed.{printed_size};
ghost use Rattle.streams.specs.Counts.{IsPrefixLen};

use deckfile::READ_ROOM;
use listing::Printed;
use std::io;
use std::io::{Stderr, Stdin, Stdout};
use streams::read_full;

// Reads a file, and prints what `put_text` puts at the front of `out` for it: on standard error where the file was refused, else on standard output.
// A read or a write that fails ends it with that error.
pub fn print_for_file<F: Fn(&[u8], &mut [u8]) -> Printed>(
    mut input: Stdin,
    output: Stdout,
    refusals: Stderr,
    out: &mut [u8],
    put_text: F,
) -> io::Result<()>
    requires callable { F.IsAlwaysCallable put_text }
    requires prefix_len { (file : _) (before : _) (p : _) (after : _) → F.post put_text file before p after → IsPrefixLen (printed_size p) after.now }
{
    let mut file = [0u8; READ_ROOM];
    let n = read_full(&mut input, &mut file)?;
    match put_text(&file[..n], out) {
        Ok(size) => output.write_all(&out[..size]),
        Err(size) => refusals.write_all(&out[..size]),
    }
}
