// The planning program (SPEC 9.8): a deck file on standard input; on standard output the file of its deck after a run to the end, or `refused N` on
// standard error. A read or a write that fails ends it with that error.
#![tactic(auto)]

mod text;

use deckfile::LONGEST;
use printing::print_for_file;
use std::io;
use text::plan_file;

fn main(rt: HostRuntime) -> io::Result<()> {
    let mut out = [0u8; LONGEST];
    print_for_file(rt.stdin(), rt.stdout(), rt.stderr(), &mut out, plan_file)
}
