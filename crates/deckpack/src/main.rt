// Packs a text of coordinates (SPEC 9.7): on standard input one pin a line, on standard output the plain file of the deck of these pins; or nothing,
// and on standard error the line of the first fault.
#![tactic(auto)]

ghost use Rattle.packing.specs.Held.{Packs};

use lines::Line;
use packing::Packing;
use packing::text::{FAULT_ROOM, fault_line, packed_file};
use plain_file::PLAIN_ROOM;
use std::io;
use std::io::{Read, Stderr, Stdout};

// How many bytes are read at a time.
const CHUNK: usize = 4096;

// Prints the file to standard output, then the fault to standard error.
fn print(p: Packing, to: Stdout, faults: Stderr) -> io::Result<()>
    requires { Packs p }
{
    let mut file = [0u8; PLAIN_ROOM];
    let n = packed_file(p, &mut file);
    to.write_all(&file[..n])?;
    let mut text = [0u8; FAULT_ROOM];
    let m = fault_line(p.fault, &mut text);
    faults.write_all(&text[..m])
}

// A proved loop has to end, and nothing says that the input does: the loop counts its reads, up to a number that no input uses up. A read or a write that
// fails ends the program with that error.
fn main(rt: HostRuntime) -> io::Result<()> {
    let mut input = rt.stdin();
    let mut packing = packing::start();
    let mut line = Line::new();
    let mut chunk = [0u8; CHUNK];
    for _ in 0..u64::MAX {
        let n = input.read(&mut chunk)?;
        if n == 0 {
            break;
        }
        line.take_all(&chunk[..n], &mut packing);
    }
    line.finish(&mut packing);
    print(packing, rt.stdout(), rt.stderr())
}
