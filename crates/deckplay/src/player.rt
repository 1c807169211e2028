// What the lines of a script change: the deck that they leave, and standard output, where their answers go.
ghost use Rattle.std.specs.Prelude.{◌≡◌, ⊤};
ghost use Rattle.model.specs.Contents.{empty_contents};
ghost use Rattle.deck.specs.declared.Deck.{Deck};
ghost use Rattle.deck.specs.Form.{deck_of};
ghost use Rattle.deckplay.specs.Script.{after_line};

use super::output::Output;
use answer::{ANSWER_ROOM, play};
use deck::Deck;
use lines::TakesLines;
use std::io::Stdout;

#[derive(Drop)]
pub struct Player {
    pub deck: Deck,
    pub output: Output,
}

impl Player {
    // The empty deck, of which no line was played.
    pub fn new(to: Stdout) -> Player
        ensures { result.deck ≡ deck_of empty_contents }
    {
        Player {
            deck: Deck::empty(),
            output: Output::new(to),
        }
    }
}

impl TakesLines for Player {
    ghost Known = { Deck };

    ghost known = { λ p. p.deck };

    ghost after = { after_line };

    ghost ready = { λ p. ⊤ };

    // The line is played, and its answer written to standard output with a line feed, if it has one.
    fn take_line(&mut self, line: &[u8]) {
        let mut out = [0u8; ANSWER_ROOM];
        let p = play(self.deck, line, &mut out);
        if 0 < p.size {
            self.output.put(&out[..p.size]);
            self.output.put(b"\n");
        }
        self.deck = p.next;
    }
}
