// Prints the table of arrows (SPEC 9.6), one number a line. Reads nothing. A write that fails ends it with that error.
#![tactic(auto)]

mod text;

use std::io;
use text::{TEXT_ROOM, list_arrows};

fn main(rt: HostRuntime) -> io::Result<()> {
    let mut out = [0u8; TEXT_ROOM];
    let n = list_arrows(&mut out);
    rt.stdout().write_all(&out[..n])
}
