// The drawing program (SPEC 9.9): a deck file on standard input; on standard output a picture of its deck in SVG, or `refused N` on standard error. A
// read or a write that fails ends it with that error.
#![tactic(auto)]

mod text;

use picture::PICTURE_ROOM;
use printing::print_for_file;
use std::io;
use text::draw_file;

fn main(rt: HostRuntime) -> io::Result<()> {
    let mut out = [0u8; PICTURE_ROOM];
    print_for_file(rt.stdin(), rt.stdout(), rt.stderr(), &mut out, draw_file)
}
