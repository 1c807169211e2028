// The listing program (SPEC 9.1): a deck file on standard input; on standard output its listing after a run to the end, or `refused N`. A read or a
// write that fails ends it with that error.
#![tactic(auto)]

mod text;

use deckfile::READ_ROOM;
use listing::LISTING_ROOM;
use std::io;
use streams::read_full;
use text::list_file;

// Stays: a refusal goes to standard output here; `printing::print_for_file` sends one to standard error.
fn main(rt: HostRuntime) -> io::Result<()> {
    let mut file = [0u8; READ_ROOM];
    let n = read_full(&mut rt.stdin(), &mut file)?;
    let mut out = [0u8; LISTING_ROOM];
    let m = list_file(&file[..n], &mut out);
    rt.stdout().write_all(&out[..m])
}
