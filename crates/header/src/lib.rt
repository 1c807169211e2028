// The header of a file: the four letters, the count of sections, and a pair of offset and length for each; checks 1 to 3.
#![tactic(auto)]

ghost use Rattle.std.specs.Prelude.{◌≡◌, suc, ◌≤◌, ◌<◌, length};
ghost use Rattle.model.specs.Sections as model;
ghost use Rattle.model.specs.File.{shortest, headed, whole, plain, has_kinds};

use arrays::number::{number2, number4};
use points::{MAX_PINS, MAX_STEINER};

// The bytes of an offset or a length, of a pair of them, and of the count.
const NUMBER_SIZE: usize = 4;

pub const PAIR_SIZE: usize = NUMBER_SIZE + NUMBER_SIZE;

const COUNT_SIZE: usize = 2;

// Where the count stands: behind the four letters. Where the first pair stands: behind the count.
const COUNT: usize = 4;

const PAIRS: usize = COUNT + COUNT_SIZE;

// Stays: numbers and no enum, since the loop over a header counts through them and `model.offset b k` of the definitions takes them.
// The sections by their numbers, and the fewest and the most that there are: a deck of sensors alone does without the kinds.
pub const PINS: usize = 0;

pub const STEINER: usize = 1;

pub const EDGES: usize = 2;

pub const KINDS: usize = 3;

const FEWEST_SECTIONS: usize = 3;

const MOST_SECTIONS: usize = 4;

// The shortest file: the header, and nothing in its sections.
pub const SHORTEST: usize = PAIRS + PAIR_SIZE * FEWEST_SECTIONS;

// Bytes of a point and of an edge.
pub const POINT_SIZE: usize = 4;

pub const EDGE_SIZE: usize = 2;

// The most points of a file, and the edges of their tree. The longest file has them all, and a kind for each pin.
const MOST_POINTS: usize = MAX_PINS + MAX_STEINER;

const MOST_EDGES: usize = MOST_POINTS - 1;

pub const LONGEST: usize = PAIRS
    + PAIR_SIZE * MOST_SECTIONS
    + MOST_POINTS * POINT_SIZE
    + MOST_EDGES * EDGE_SIZE
    + MAX_PINS;

// Returns how many bytes the header of n sections has. The first section starts behind it.
pub fn header_size(n: usize) -> usize
    requires { model.header_size n < 18446744073709551616 }
    ensures { result ≡ model.header_size n }
{
    PAIRS + PAIR_SIZE * n
}

// Returns the offset of section k, whose pair is there.
pub fn offset(b: &[u8], k: usize) -> usize
    requires { model.header_size (suc k) ≤ length b.now }
    ensures { (result ≡ model.offset b.now k) × (result < 4294967296) }
{
    number4(b, header_size(k))
}

// Returns the length of section k, whose pair is there.
pub fn size(b: &[u8], k: usize) -> usize
    requires { model.header_size (suc k) ≤ length b.now }
    ensures { (result ≡ model.size b.now k) × (result < 4294967296) }
{
    number4(b, header_size(k) + NUMBER_SIZE)
}

// Check 1 (SPEC 8.2): returns whether the length of the file, its first four bytes and its number of sections are right.
pub fn is_headed(b: &[u8]) -> bool
    ensures { result ≡ headed b.now }
{
    (SHORTEST..=LONGEST).contains(&b.len())
        && arrays::same::same(&b[..COUNT], b"DECK")
        && (FEWEST_SECTIONS..=MOST_SECTIONS).contains(&number2(b, COUNT))
}

// Check 2 (SPEC 8.2): returns whether there are bytes for all the pairs, and the sections follow the header and one another, up to the end
// of the file.
pub fn is_laid_out(b: &[u8]) -> bool
    requires { shortest ≤ length b.now }
    ensures { result ≡ model.laid_out b.now }
{
    let n = number2(b, COUNT);
    let mut at = header_size(n);
    if b.len() < at {
        return false;
    }
    for k in 0..n {
        if offset(b, k) != at {
            return false;
        }
        at += size(b, k);
    }
    at == b.len()
}

// Check 3 (SPEC 8.2): returns whether the sections consist of whole points and whole runs.
pub fn is_whole(b: &[u8]) -> bool
    requires { shortest ≤ length b.now }
    ensures { result ≡ whole b.now }
{
    size(b, PINS) % POINT_SIZE == 0
        && size(b, STEINER) % POINT_SIZE == 0
        && size(b, EDGES) % EDGE_SIZE == 0
}

// Returns whether the file has a section of kinds (SPEC 7.8).
pub fn has_kinds(b: &[u8]) -> bool
    requires { shortest ≤ length b.now }
    ensures { result ≡ has_kinds b.now }
{
    KINDS < number2(b, COUNT)
}

// Returns whether the file is plain (SPEC 7.4): it has no taps and no runs.
pub fn is_plain(b: &[u8]) -> bool
    requires { shortest ≤ length b.now }
    ensures { result ≡ plain b.now }
{
    size(b, STEINER) == 0 && size(b, EDGES) == 0
}
