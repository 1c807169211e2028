// The calls on a deck (SPEC 4). Each returns the next deck, beside its reply.
ghost use Rattle.std.specs.Prelude.{◌≡◌};
ghost use Rattle.model.specs.Contents.{ValidContents};
ghost use Rattle.model.specs.Call as call;
ghost use Rattle.working.specs.WorkingDeck.{contents_of};
ghost use Rattle.working.specs.declared.deck.WorkingDeck.{WorkingDeck};
ghost use Rattle.calls.specs.declared.Changed.{Changed};
ghost use Rattle.calls.specs.Changes.{ChangedBy};
ghost use Rattle.deck.specs.Calls.{outcome_of, called};

use super::check::check;
use super::{Deck, Outcome};
use calls::{Changed, Reply};
use refusals::Refusal;
use working::deck::WorkingDeck;

// The outcome of a call on a deck in working form: the deck, and the reply.
impl From<Changed> for Outcome {
    ghost from_gives = { λ c o. o ≡ outcome_of c };

    fn from(c: Changed) -> Outcome {
        let reply = c.reply;
        Outcome {
            next: Deck::from(c.working),
            reply,
        }
    }
}

// The outcome of a call on a deck in working form, or refusal 11 where the deck is not sound, which is handed back unchanged.
fn called<F: FnOnce(WorkingDeck) -> Changed>(d: Deck, make: F) -> Outcome
    requires { (w : WorkingDeck) → ValidContents (contents_of w) → F.pre make w }
    ensures { (c : call.Call) → ((w : WorkingDeck) (t : Changed) → F.post make w t → ChangedBy w c t) → result ≡ called d c }
{
    let Some(w) = check(d) else {
        return Outcome {
            next: d,
            reply: Reply::Refused(u8::from(Refusal::NotSound)),
        };
    };
    Outcome::from(make(w))
}

impl Deck {
    // Adds a pin of a kind. Returns the next deck and the reply: done, or a refusal, in the order 11, 7, 15, 8, 10.
    pub fn add(self, x: i32, y: i32, kind: u32) -> Outcome
        ensures { result ≡ called self (call.add (record { x = x; y = y }) kind) }
    {
        called(self, |w| calls::add(w, x, y, kind))
    }

    // Withdraws a pin. Returns the next deck and the reply: done, or a refusal, in the order 11, 9.
    pub fn withdraw(self, x: i32, y: i32) -> Outcome
        ensures { result ≡ called self (call.withdraw (record { x = x; y = y })) }
    {
        called(self, |w| calls::withdraw(w, x, y))
    }

    // One round. Returns the next deck and the reply: finished, the new Steiner point with the fall in length, or refusal 11.
    pub fn round(self) -> Outcome
        ensures { result ≡ called self call.one_round }
    {
        called(self, calls::round)
    }

    // Rounds until one is finished. Returns the next deck and the reply: how many rounds added a Steiner point, or refusal 11.
    pub fn run_to_end(self) -> Outcome
        ensures { result ≡ called self call.run_to_end }
    {
        called(self, calls::run_to_end)
    }

    // Sets the tail length. Returns the next deck and the reply: done, or a refusal, 11 and then 16.
    pub fn set_tail(self, tail: u32) -> Outcome
        ensures { result ≡ called self (call.set_tail tail) }
    {
        called(self, |w| calls::set_tail(w, tail))
    }
}
