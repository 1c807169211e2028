// The commands of a script: a name and the numbers behind it.
#![tactic(auto)]

ghost use Rattle.std.specs.Prelude.{◌≡◌};
ghost use Rattle.commands.specs.Commands.{of_numbers, of_one_word, with_number, with_natural, with_size, with_pair, with_three};
ghost use Rattle.commands.specs.Commands.{question_word, with_kind, with_places, with_five};

use arguments::Arguments;

// A call that changes the deck.
#[derive(Clone, Copy)]
pub enum Change {
    Add(i32, i32, u32),
    Withdraw(i32, i32),
    Round,
    Finish,
    Tail(u32),
}

// A question on the deck.
#[derive(Clone, Copy)]
pub enum Query {
    Length,
    Counts,
    Run(u32),
    Degree(i32, i32),
    Kinds,
    Column(i32),
}

// A question on directions, for which no deck is needed: the octant of a difference, the arrow from a display to a bay at a pitch, the glyph of
// a number.
#[derive(Clone, Copy)]
pub enum Direction {
    Octant(i32, i32),
    Arrow(i16, i16, i16, i16, i32),
    Glyph(i32),
}

// Stays: an Option of a command is no plainer, since a blank line and an error stand beside the commands (Names in script/specs/Claim.antt).
// What a line asks for: nothing, as it is empty or a comment; no command; a file to read, which `bytes_of` gives; a file to write,
// into so many bytes; a call; a question on the deck; a question on directions; the listing.
#[derive(Clone, Copy)]
pub enum Command {
    Blank,
    Error,
    Read,
    Write(u32),
    Call(Change),
    Ask(Query),
    Direct(Direction),
    List,
}

// The most bytes of a deck file, the capacity of `write` where none is given (SPEC 9.3). A line knows no deck, so the number stands here too.
pub const LONGEST_FILE: u32 = 856;

// The kind of a device where a line names none: a sensor.
// Stays: a number, since a script may ask for any kind, and `add` refuses it (15).
const SENSOR: u32 = 0;

// Returns the command of a name and the numbers behind it.
#[tactic(auto, unfolding(crate::specs::Commands::of_numbers))]
pub fn of_numbers(name: &[u8], a: Option<Arguments>) -> Command
    ensures { result ≡ of_numbers name.now a }
{
    match a {
        Some(Arguments::Zero) => by_name(name),
        Some(Arguments::One(i)) => with_number(name, i),
        Some(Arguments::Two(i, j)) => with_pair(name, i, j),
        Some(Arguments::Three(i, j, k)) => with_three(name, i, j, k),
        Some(Arguments::Five(i, j, k, l, m)) => with_five(name, i, j, k, l, m),
        Some(Arguments::Four(..)) | None => Command::Error,
    }
}

// The command of one word.
#[tactic(auto, using(crate::proofs::Tests::compared), unfolding(crate::specs::Commands::of_one_word))]
fn by_name(name: &[u8]) -> Command
    ensures { result ≡ of_one_word name.now }
{
    match name {
        b"write" => Command::Write(LONGEST_FILE),
        b"round" => Command::Call(Change::Round),
        b"finish" => Command::Call(Change::Finish),
        b"list" => Command::List,
        _ => question_word(name),
    }
}

// The question of one word.
#[tactic(auto, using(crate::proofs::Tests::compared), unfolding(crate::specs::Commands::question_word))]
fn question_word(name: &[u8]) -> Command
    ensures { result ≡ question_word name.now }
{
    match name {
        b"length" => Command::Ask(Query::Length),
        b"counts" => Command::Ask(Query::Counts),
        b"kinds" => Command::Ask(Query::Kinds),
        _ => Command::Error,
    }
}

// The command of a word and one number.
#[tactic(auto, using(crate::proofs::Tests::compared), unfolding(crate::specs::Commands::with_number))]
fn with_number(name: &[u8], i: i32) -> Command
    ensures { result ≡ with_number name.now i }
{
    match name {
        b"glyph" => Command::Direct(Direction::Glyph(i)),
        b"column" => Command::Ask(Query::Column(i)),
        _ => with_natural(name, i),
    }
}

// The command of a word and one number, which is not negative.
#[tactic(auto, unfolding(crate::specs::Commands::with_natural))]
fn with_natural(name: &[u8], i: i32) -> Command
    ensures { result ≡ with_natural name.now i }
{
    match u32::try_from(i) {
        Ok(n) => with_size(name, n),
        Err(_) => Command::Error,
    }
}

// The command of a word and a size.
#[tactic(auto, using(crate::proofs::Tests::compared), unfolding(crate::specs::Commands::with_size))]
fn with_size(name: &[u8], n: u32) -> Command
    ensures { result ≡ with_size name.now n }
{
    match name {
        b"write" => Command::Write(n),
        b"run" => Command::Ask(Query::Run(n)),
        b"tail" => Command::Call(Change::Tail(n)),
        _ => Command::Error,
    }
}

// The command of a word and two numbers.
#[tactic(auto, using(crate::proofs::Tests::compared), unfolding(crate::specs::Commands::with_pair))]
fn with_pair(name: &[u8], i: i32, j: i32) -> Command
    ensures { result ≡ with_pair name.now i j }
{
    match name {
        b"add" => Command::Call(Change::Add(i, j, SENSOR)),
        b"withdraw" => Command::Call(Change::Withdraw(i, j)),
        b"degree" => Command::Ask(Query::Degree(i, j)),
        b"octant" => Command::Direct(Direction::Octant(i, j)),
        _ => Command::Error,
    }
}

// The command `add` with a kind, which is not negative.
#[tactic(auto, unfolding(crate::specs::Commands::with_kind))]
fn with_kind(x: i32, y: i32, kind: i32) -> Command
    ensures { result ≡ with_kind x y kind }
{
    match u32::try_from(kind) {
        Ok(kind) => Command::Call(Change::Add(x, y, kind)),
        Err(_) => Command::Error,
    }
}

// The command of a word and three numbers.
#[tactic(auto, using(crate::proofs::Tests::compared), unfolding(crate::specs::Commands::with_three))]
fn with_three(name: &[u8], x: i32, y: i32, kind: i32) -> Command
    ensures { result ≡ with_three name.now x y kind }
{
    match name {
        b"add" => with_kind(x, y, kind),
        _ => Command::Error,
    }
}

// The command `arrow` with places of 16 bits and a pitch.
#[tactic(auto, unfolding(crate::specs::Commands::with_places, crate::specs::Commands::are_short, crate::specs::Commands::is_short))]
fn with_places(x: i32, y: i32, u: i32, v: i32, pitch: i32) -> Command
    ensures { result ≡ with_places x y u v pitch }
{
    match (
        i16::try_from(x),
        i16::try_from(y),
        i16::try_from(u),
        i16::try_from(v),
    ) {
        (Ok(x), Ok(y), Ok(u), Ok(v)) => Command::Direct(Direction::Arrow(x, y, u, v, pitch)),
        _ => Command::Error,
    }
}

// The command of a word and five numbers.
#[tactic(auto, using(crate::proofs::Tests::compared), unfolding(crate::specs::Commands::with_five))]
fn with_five(name: &[u8], x: i32, y: i32, u: i32, v: i32, pitch: i32) -> Command
    ensures { result ≡ with_five name.now x y u v pitch }
{
    match name {
        b"arrow" => with_places(x, y, u, v, pitch),
        _ => Command::Error,
    }
}
