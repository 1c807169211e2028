// The round and the run to the end on a working form, with tails of some length.
#![tactic(auto)]

ghost use Rattle.std.specs.Prelude.{◌≡◌, ◌≤◌};
ghost use Rattle.model.specs.State.{Valid, points};
ghost use Rattle.model.specs.Tail.{longest_tail};
ghost use Rattle.model.specs.Round as round;
ghost use Rattle.working.specs.InOrder as work;
ghost use Rattle.search.specs.Search.{answer_of};
ghost use Rattle.rounds.specs.Rounds.{RoundOf, FinishOf};

use edges::length_of;
use search::found::Crossing;
use working::Working;

// A working form after a round that added a Steiner point, with its x, its y and the whole fall in length.
#[derive(Clone, Copy)]
pub struct Rounded {
    pub working: Working,
    pub x: i32,
    pub y: i32,
    pub fall: u64,
}

// A working form after a run to the end, and how many rounds added a Steiner point.
#[derive(Clone, Copy)]
pub struct Ended {
    pub working: Working,
    pub count: u64,
}

// The lowest crossing of greatest saving, if one saves more than 0.
#[inline(never)]
fn best_of(w: Working, tail: u64) -> Option<Crossing>
    requires tail_le_longest_tail { tail ≤ longest_tail }
    ensures { result ≡ answer_of (round.best tail (points (work.state_of w))) }
{
    let n = w.npoints;
    crossing::best(&w.xs[..n], &w.ys[..n], &w.keys[..w.nkeys], tail)
}

// One round: the best crossing joins as a Steiner point and a sweep follows. Returns the next working form with that point, none where it is finished.
// Stays: a working form and a tail with a clause on it, here and in all that is asked of a form alone, and no deck, since rounds and runs know no kinds;
// a type for a short tail would be no plainer, since the tail of a deck is a number that any caller hands in (check 11).
pub fn round_of(w: Working, tail: u64) -> Option<Rounded>
    requires valid { Valid (work.state_of w) }
    requires tail_le_longest_tail { tail ≤ longest_tail }
    ensures { RoundOf tail w result }
{
    let at = best_of(w, tail)?;
    let next = prune::change::with_steiner(w, plane::codes::pack(at.x, at.y));
    let fall = length_of(w, tail) - length_of(next, tail);
    let x = plane::to_signed(at.x);
    let y = plane::to_signed(at.y);
    Some(Rounded {
        working: next,
        x,
        y,
        fall,
    })
}

// Rounds until one is finished. Returns the working form that they lead to, and how many added a Steiner point.
pub fn finish_of(w: Working, tail: u64) -> Ended
    requires valid { Valid (work.state_of w) }
    requires tail_le_longest_tail { tail ≤ longest_tail }
    ensures { FinishOf tail w result }
{
    let mut at = w;
    let mut count = 0;
    while let Some(next) = round_of(at, tail) {
        at = next.working;
        count += 1;
    }
    Ended { working: at, count }
}
