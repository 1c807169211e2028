// Where the parts of a deck stand in the array of words that tests hand over. The entries here use this list, and the bindings in Rust include
// this very file, so it keeps to what both languages read. The contracts hold it against the places of the definition (specs/Words.antt).

// How many words there are for pins, for Steiner points and for the ends of edges. The kinds of the pins are bytes beside the words.
pub const PIN_PLACES: usize = 64;

pub const KIND_PLACES: usize = PIN_PLACES;

pub const STEINER_PLACES: usize = 128;

pub const END_PLACES: usize = 128;

// The first word of each part, behind the part in front of it: the pins, their number, the Steiner points, their number, the tail, the ends of edges.
pub const PINS: usize = 0;

pub const PIN_COUNT: usize = PINS + PIN_PLACES;

pub const STEINER: usize = PIN_COUNT + 1;

pub const STEINER_COUNT: usize = STEINER + STEINER_PLACES;

pub const TAIL: usize = STEINER_COUNT + 1;

pub const ENDS: usize = TAIL + 1;

// The number of words of a deck.
pub const WORDS: usize = ENDS + END_PLACES;
