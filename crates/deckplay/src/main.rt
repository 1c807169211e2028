// Plays a script of calls: on standard input one call a line, on standard output one answer line for each.
#![tactic(auto)]

mod output;
mod player;

use lines::Line;
use player::Player;
use std::io;
use std::io::Read;

// How many bytes are read at a time.
const CHUNK: usize = 4096;

// A proved loop has to end, and nothing says that the input does: the loop counts its reads, up to a number that no input uses up. A read or a write that
// fails ends the program with that error.
fn main(rt: HostRuntime) -> io::Result<()> {
    let mut input = rt.stdin();
    let mut player = Player::new(rt.stdout());
    let mut line = Line::new();
    let mut chunk = [0u8; CHUNK];
    // Stays: the loop of deckpack is like it, but no write could fail and end that one.
    for _ in 0..u64::MAX {
        let n = input.read(&mut chunk)?;
        if n == 0 {
            break;
        }
        line.take_all(&chunk[..n], &mut player);
        if player.output.has_failed() {
            break;
        }
    }
    line.finish(&mut player);
    player.output.finish()
}
