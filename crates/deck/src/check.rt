// Check 11: whether a deck is sound, with the deck in working form where it is.
ghost use Rattle.std.specs.Prelude.{◌≡◌, ◌↔◌, ◌≤◌, IsTrue, take};
ghost use Rattle.arrays.specs.Set.{all};
ghost use Rattle.model.specs.State.{max_pins};
ghost use Rattle.model.specs.DeviceKinds.{is_kind};
ghost use Rattle.working.specs.InOrder as work;
ghost use Rattle.working.specs.WorkingDeck as workingDeck;
ghost use Rattle.deck.specs.Form.{deck_of, sound};
ghost use Rattle.deck.specs.Check.{valid_points, Forms, Checks};

use super::Deck;
use edges::edge_numbers;
use points::Points;
use points::kinds::{LARGEST_KIND, all_within, in_front};
use working::Working;
use working::deck::{LONGEST_TAIL, WorkingDeck};

// Whether the kinds of a deck's pins are kinds.
fn knows_kinds(d: &Deck) -> bool
    requires { d.now.points.npins ≤ max_pins }
    ensures { result ≡ all is_kind (take d.now.points.npins d.now.kinds) }
{
    all_within(&d.kinds[..d.points.npins], LARGEST_KIND)
}

// Whether the kinds and the ends of two decks are the same in every place.
fn same_rest(d: &Deck, e: &Deck) -> bool
    ensures { IsTrue result ↔ ((d.now.kinds ≡ e.now.kinds) × (d.now.ends ≡ e.now.ends)) }
{
    d.kinds == e.kinds && d.ends == e.ends
}

// The deck of a deck in working form.
impl From<WorkingDeck> for Deck {
    ghost from_gives = { λ w d. d ≡ deck_of (workingDeck.contents_of w) };

    fn from(w: WorkingDeck) -> Deck {
        let points = w.form.points;
        let kinds = in_front(&w.kinds[..points.npins]);
        let ends = edge_numbers(w.form);
        Deck {
            points,
            kinds,
            tail: w.tail,
            ends,
        }
    }
}

// Returns the working form of points, none where they are not those of a valid state.
pub fn form_of(q: Points) -> Option<Working>
    ensures { Forms (valid_points q) q result }
{
    if !points::check::is_arranged(q) {
        return None;
    }
    let w = working::arrange(q);
    if prune::lowest_weak(w) < w.points.nsteiner {
        return None;
    }
    Some(w)
}

// Check 11: returns the deck in working form where it is that of valid contents, places that are not used included; none where it is not.
pub fn check(d: Deck) -> Option<WorkingDeck>
    ensures { Checks (sound d) d result }
{
    if LONGEST_TAIL < d.tail {
        return None;
    }
    let form = form_of(d.points)?;
    if !knows_kinds(&d) {
        return None;
    }
    let Deck { kinds, tail, .. } = d;
    let w = WorkingDeck { form, kinds, tail };
    if !same_rest(&d, &Deck::from(w)) {
        return None;
    }
    Some(w)
}
