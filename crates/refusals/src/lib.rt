// The refusals: why a file, a call, a question or a write is turned down. Each has the number of SPEC 8, which is all that it says to the outside.
#![tactic(auto)]

ghost use Rattle.std.specs.Prelude.{◌≡◌};
ghost use Rattle.refusals.specs.Refusals.{number_of};

// In the order of their numbers, from 1.
#[derive(Clone, Copy, Debug, PartialEq, Eq)]
pub enum Refusal {
    // Of a file: no deck file, sections that do not lie one behind the other, a section that ends inside a point or a run, more than 64 pins,
    // points out of range or out of order, and runs that are not those of a sound deck.
    NotADeckFile,
    WrongLayout,
    CutSection,
    TooManyPins,
    BadPoints,
    WrongTree,
    // Of a pin to add or to withdraw: out of range, there already, not there, and the 65th.
    OutOfRange,
    AlreadyThere,
    NotThere,
    Full,
    // Of a deck that is not sound, and of a buffer that is shorter than the file.
    NotSound,
    NoRoom,
    // Of an arrow: the pitch is out of range, and the bay is too many pitches away.
    BadPitch,
    TooFar,
    // A kind that is none, or the kinds of a file that are not those that it needs; and a tail length above the longest.
    BadKind,
    LongTail,
}

impl From<Refusal> for u8 {
    ghost from_gives = { λ why n. n ≡ number_of why };

    fn from(why: Refusal) -> u8 {
        match why {
            Refusal::NotADeckFile => 1,
            Refusal::WrongLayout => 2,
            Refusal::CutSection => 3,
            Refusal::TooManyPins => 4,
            Refusal::BadPoints => 5,
            Refusal::WrongTree => 6,
            Refusal::OutOfRange => 7,
            Refusal::AlreadyThere => 8,
            Refusal::NotThere => 9,
            Refusal::Full => 10,
            Refusal::NotSound => 11,
            Refusal::NoRoom => 12,
            Refusal::BadPitch => 13,
            Refusal::TooFar => 14,
            Refusal::BadKind => 15,
            Refusal::LongTail => 16,
        }
    }
}
