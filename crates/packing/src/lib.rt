// A text of coordinates line by line (SPEC 9.7): the deck of its pins so far, or the first fault.
#![tactic(auto)]

pub mod text;

ghost use Rattle.std.specs.Prelude.{◌≡◌};
ghost use Rattle.model.specs.Contents.{ValidContents};
ghost use Rattle.model.specs.Call as call;
ghost use Rattle.working.specs.WorkingDeck.{contents_of};
ghost use Rattle.packing.specs.Packing.{Packed, nothing_packed, pack_line, by_call};
ghost use Rattle.packing.specs.Held.{pack_of, fault_by, Packs, PacksAs};

use calls::Reply;
use lines::TakesLines;
use pin_line::{PinLine, parse};
use working::deck::WorkingDeck;

// A fault: a line that is none of these lines, or a pin that is refused; with the number of the line.
#[derive(Clone, Copy)]
pub enum Fault {
    Error(u64),
    Refused(u64, u8),
}

// A text of which some lines were taken: the deck of their pins, how many lines they are, and the first fault, if there is one.
// Stays: `Packs` in the contracts. As a ghost field it would have to be a proposition, which is not proved of `ValidContents`.
#[derive(Clone, Copy)]
pub struct Packing {
    pub deck: WorkingDeck,
    pub lines: u64,
    pub fault: Option<Fault>,
}

// Returns a text of which no line was taken.
pub fn start() -> Packing
    ensures { PacksAs result nothing_packed }
{
    Packing {
        deck: WorkingDeck::empty(),
        lines: 0,
        fault: None,
    }
}

// The fault of line n, by the reply to its call.
fn fault_by(n: u64, r: Reply) -> Option<Fault>
    ensures { result ≡ fault_by n r }
{
    match r {
        Reply::Refused(m) => Some(Fault::Refused(n, m)),
        _ => None,
    }
}

// Line n asks for a pin: it is added, or the refusal is the fault.
fn add_pin(d: WorkingDeck, n: u64, x: i32, y: i32, kind: u32) -> Packing
    requires valid_contents { ValidContents (contents_of d) }
    ensures { PacksAs result (by_call n (contents_of d) (call.add (record { x = x; y = y }) kind)) }
{
    let c = calls::add(d, x, y, kind);
    Packing {
        deck: c.working,
        lines: n,
        fault: fault_by(n, c.reply),
    }
}

// Takes one more line, which is given without its line feed. After a fault nothing changes any more.
pub fn line(p: Packing, bytes: &[u8]) -> Packing
    requires { Packs p }
    ensures { PacksAs result (pack_line (pack_of p) bytes.now) }
{
    if p.fault.is_some() {
        return p;
    }
    // The number stops at the largest of 64 bits.
    let lines = p.lines.saturating_add(1);
    match parse(bytes) {
        PinLine::Passed => Packing { lines, ..p },
        PinLine::Error => Packing {
            lines,
            fault: Some(Fault::Error(lines)),
            ..p
        },
        PinLine::Pin(x, y, kind) => add_pin(p.deck, lines, x, y, kind),
    }
}

// The lines of an input are taken one after the other.
impl TakesLines for Packing {
    ghost Known = { Packed };

    ghost known = { pack_of };

    ghost after = { pack_line };

    ghost ready = { Packs };

    fn take_line(&mut self, bytes: &[u8]) {
        *self = line(*self, bytes);
    }
}
