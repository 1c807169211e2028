// The calls on a deck in working form. Each returns the next one and a reply; a refused call returns the same one.
#![tactic(auto)]

ghost use Rattle.std.specs.Prelude.{◌≡◌, T};
ghost use Rattle.model.specs.Contents.{ValidContents};
ghost use Rattle.model.specs.Call as call;
ghost use Rattle.plane.specs.Code.{point_of, is_code};
ghost use Rattle.working.specs.WorkingDeck.{contents_of};
ghost use Rattle.refusals.specs.Refusals.{number_of};
ghost use Rattle.calls.specs.Changes.{refusal_number, refusing, ChangedBy};

use plane::codes::locate;
use points::MAX_PINS;
use points::kinds::{LARGEST_KIND, SENSOR};
use refusals::Refusal;
use working::deck::{LONGEST_TAIL, WorkingDeck};

// What a call replies: done, or a refusal by its number; a round: finished, or the new Steiner point and the whole fall in
// length; a run to the end: the number of rounds that added a Steiner point.
// Stays: a refusal by its number, not by its name, since `reply_of`, `called` and `Demand1.file_refused` speak of every number.
#[derive(Clone, Copy)]
pub enum Reply {
    Done,
    Refused(u8),
    Finished,
    Tap(i32, i32, u64),
    Rounds(u64),
}

// The deck that follows, in working form, and the reply.
#[derive(Clone, Copy)]
pub struct Changed {
    pub working: WorkingDeck,
    pub reply: Reply,
}

// Returns the number of a refusal, and 0 for any other reply.
#[tactic(auto, unfolding(crate::specs::Changes::refusal_number))]
pub fn refusal_number(r: Reply) -> u8
    ensures { result ≡ refusal_number r }
{
    match r {
        Reply::Refused(n) => n,
        _ => 0,
    }
}

// A refusal.
fn refuse(d: WorkingDeck, why: Refusal) -> Changed
    ensures { result ≡ refusing d (number_of why) }
{
    Changed {
        working: d,
        reply: Reply::Refused(u8::from(why)),
    }
}

// Adds a pin of a kind at a point in range.
fn add_at(d: WorkingDeck, k: u64, kind: u32) -> Changed
    requires t { T (is_code k) }
    requires valid_contents { ValidContents (contents_of d) }
    ensures { ChangedBy d (call.add (point_of k) kind) result }
{
    let points = &d.form.points;
    let unknown = u32::from(LARGEST_KIND) < kind;
    let there = sorted::has(&points.pins[..points.npins], k);
    let full = MAX_PINS <= points.npins;
    if unknown {
        return refuse(d, Refusal::BadKind);
    }
    if there {
        return refuse(d, Refusal::AlreadyThere);
    }
    if full {
        return refuse(d, Refusal::Full);
    }
    // Stays: `as`, since the number fits, as is proved; try_from would hand out an error that never comes.
    let given = kind as u8;
    let next = prune::change::insert(d.form, k);
    Changed {
        working: d.follow(next, given),
        reply: Reply::Done,
    }
}

// Withdraws a pin at a point in range.
fn withdraw_at(d: WorkingDeck, k: u64) -> Changed
    requires t { T (is_code k) }
    ensures { ChangedBy d (call.withdraw (point_of k)) result }
{
    if !sorted::has(&d.form.points.pins[..d.form.points.npins], k) {
        return refuse(d, Refusal::NotThere);
    }
    let next = prune::change::remove(d.form, k);
    Changed {
        working: d.follow(next, SENSOR),
        reply: Reply::Done,
    }
}

// Adds a pin of a kind. Returns the deck that follows, and the reply: done, or a refusal, in the order 7, 15, 8, 10.
pub fn add(d: WorkingDeck, x: i32, y: i32, kind: u32) -> Changed
    requires valid_contents { ValidContents (contents_of d) }
    ensures { ChangedBy d (call.add (record { x = x; y = y }) kind) result }
{
    match locate(x, y) {
        None => refuse(d, Refusal::OutOfRange),
        Some(k) => add_at(d, k, kind),
    }
}

// Withdraws a pin. Returns the deck that follows, and the reply: done, or refusal 9.
pub fn withdraw(d: WorkingDeck, x: i32, y: i32) -> Changed
    ensures { ChangedBy d (call.withdraw (record { x = x; y = y })) result }
{
    match locate(x, y) {
        None => refuse(d, Refusal::NotThere),
        Some(k) => withdraw_at(d, k),
    }
}

// One round. Returns the deck that follows, and the reply: finished, or the new Steiner point with the fall in length.
pub fn round(mut d: WorkingDeck) -> Changed
    requires valid_contents { ValidContents (contents_of d) }
    ensures { ChangedBy d call.one_round result }
{
    match rounds::round_of(d.form, d.tail) {
        None => Changed {
            working: d,
            reply: Reply::Finished,
        },
        Some(next) => {
            d.form = next.working;
            Changed {
                working: d,
                reply: Reply::Tap(next.x, next.y, next.fall),
            }
        }
    }
}

// Rounds until one is finished. Returns the deck that they lead to, and how many added a Steiner point.
pub fn run_to_end(mut d: WorkingDeck) -> Changed
    requires valid_contents { ValidContents (contents_of d) }
    ensures { ChangedBy d call.run_to_end result }
{
    let end = rounds::finish_of(d.form, d.tail);
    d.form = end.working;
    Changed {
        working: d,
        reply: Reply::Rounds(end.count),
    }
}

// Sets the tail length. Returns the deck with that tail, and the reply: done, or refusal 16.
pub fn set_tail(mut d: WorkingDeck, tail: u32) -> Changed
    ensures { ChangedBy d (call.set_tail tail) result }
{
    let tail = u64::from(tail);
    if LONGEST_TAIL < tail {
        return refuse(d, Refusal::LongTail);
    }
    d.tail = tail;
    Changed {
        working: d,
        reply: Reply::Done,
    }
}
