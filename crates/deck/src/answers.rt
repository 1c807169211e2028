// The questions on a deck (SPEC 4.6, 4.9). Each returns its answer, or refusal 11 where the deck is not sound.
ghost use Rattle.std.specs.Prelude.{◌≡◌};
ghost use Rattle.model.specs.Contents.{ValidContents};
ghost use Rattle.working.specs.WorkingDeck.{contents_of};
ghost use Rattle.working.specs.declared.deck.WorkingDeck.{WorkingDeck};
ghost use Rattle.questions.specs.declared.Answer.{Answer};
ghost use Rattle.questions.specs.Answers.{Question, answer_to, of_length, of_counts, of_edge, of_degree, of_kinds, of_column};
ghost use Rattle.deck.specs.Form.{sound};
ghost use Rattle.deck.specs.Questions.{asked};

use super::Deck;
use super::check::check;
use questions::Answer;
use refusals::Refusal;
use working::deck::WorkingDeck;

// The answer of a question on a deck in working form, or refusal 11 where the deck is not sound.
fn asked<F: FnOnce(WorkingDeck) -> Answer>(d: Deck, question: F) -> Answer
    requires { (w : WorkingDeck) → ValidContents (contents_of w) → F.pre question w }
    ensures { (q : Question) → ((w : WorkingDeck) (a : Answer) → F.post question w a → a ≡ answer_to q (contents_of w)) → result ≡ asked d q }
{
    let Some(w) = check(d) else {
        return Answer::Refused(u8::from(Refusal::NotSound));
    };
    question(w)
}

impl Deck {
    // Returns whether the deck is sound (check 11).
    pub fn is_valid(self) -> bool
        ensures { result ≡ sound self }
    {
        check(self).is_some()
    }

    // Returns the length of the deck's tree.
    pub fn length(self) -> Answer
        ensures { result ≡ asked self of_length }
    {
        asked(self, questions::length)
    }

    // Returns the numbers of pins, Steiner points and edges.
    pub fn counts(self) -> Answer
        ensures { result ≡ asked self of_counts }
    {
        asked(self, questions::counts)
    }

    // Returns the edge at a place of the listing order, counted from 0, or that there is none.
    pub fn edge_at(self, i: usize) -> Answer
        ensures { result ≡ asked self (of_edge i) }
    {
        asked(self, |w| questions::edge_at(w, i))
    }

    // Returns how many edges a point has, 0 where the deck does not hold it.
    pub fn degree_at(self, x: i32, y: i32) -> Answer
        ensures { result ≡ asked self (of_degree (record { x = x; y = y })) }
    {
        asked(self, |w| questions::degree_at(w, x, y))
    }

    // Returns how long the edges of each kind of device are together.
    pub fn kind_lengths(self) -> Answer
        ensures { result ≡ asked self of_kinds }
    {
        asked(self, questions::kind_lengths)
    }

    // Returns the lowest of the candidates with this x that have the greatest saving, with that saving, or that there is none.
    pub fn column(self, x: i32) -> Answer
        ensures { result ≡ asked self (of_column x) }
    {
        asked(self, |w| questions::column(w, x))
    }
}
