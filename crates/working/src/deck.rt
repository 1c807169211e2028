// A deck in working form: the working form of its points, the kinds of its pins, and its tail length. Trees and sweeps are of the form alone.
use super::{Working, arrange};
use points::{MAX_PINS, Points};

// The longest tail.
pub const LONGEST_TAIL: u64 = 500;

// Stays: no invariant but that of the form, since `follow` takes any kind and keeps any tail; `ValidContents` is asked for where it is needed.
// Only as many kinds count as there are pins.
#[derive(Clone, Copy)]
pub struct WorkingDeck {
    pub form: Working,
    pub kinds: [u8; MAX_PINS],
    pub tail: u64,
}

impl WorkingDeck {
    ghost use Rattle.std.specs.Prelude.{◌≡◌};
    ghost use Rattle.model.specs.Contents.{following, empty_contents};
    ghost use Rattle.working.specs.InOrder.{state_of};
    ghost use Rattle.working.specs.WorkingDeck.{contents_of};

    // Returns an empty deck in working form.
    pub fn empty() -> WorkingDeck
        ensures { contents_of result ≡ empty_contents }
    {
        WorkingDeck {
            form: arrange(Points::empty()),
            kinds: [0u8; MAX_PINS],
            tail: 0,
        }
    }

    // Returns the deck of another form with the same tail, where the kinds follow their pins: each pin that was there keeps its kind, any
    // other takes `kind`.
    pub fn follow(self, next: Working, kind: u8) -> WorkingDeck
        ensures { (result.form ≡ next) × (contents_of result ≡ following kind (contents_of self) (state_of next)) }
    {
        let old = &self.form.points;
        let kinds = points::kinds::next_kinds(
            &old.pins[..old.npins],
            &self.kinds[..old.npins],
            &next.points.pins[..next.points.npins],
            kind,
        );
        WorkingDeck {
            form: next,
            kinds,
            tail: self.tail,
        }
    }
}
