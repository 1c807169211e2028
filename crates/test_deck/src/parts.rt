// A reply or an answer in parts that another language can read: its kind, three numbers and two points.
ghost use Rattle.std.specs.Prelude.{◌≡◌};
ghost use Rattle.test_deck.specs.Parts.{one_number, parts_of_reply, parts_of_column, parts_of_answer, parts_in};

use calls::Reply;
use columns::Candidate;
use questions::Answer;

#[derive(Clone, Copy)]
pub struct Parts {
    pub kind: u8,
    pub numbers: [u64; 3],
    pub places: [i32; 4],
}

// The parts of a kind that has one number and no point.
// Stays: kinds by number, here and below, for another language (`parts_of_reply`, `parts_of_answer`).
fn one_number(kind: u8, number: u64) -> Parts
    ensures { result ≡ one_number kind number }
{
    Parts {
        kind,
        numbers: [number, 0, 0],
        places: [0, 0, 0, 0],
    }
}

// Returns the parts of a reply.
pub fn parts_of_reply(reply: Reply) -> Parts
    ensures { result ≡ parts_of_reply reply }
{
    match reply {
        Reply::Done => one_number(0, 0),
        Reply::Refused(number) => one_number(1, u64::from(number)),
        Reply::Finished => one_number(2, 0),
        Reply::Tap(x, y, fall) => Parts {
            kind: 3,
            numbers: [fall, 0, 0],
            places: [x, y, 0, 0],
        },
        Reply::Rounds(count) => one_number(4, count),
    }
}

// The parts of what a column answers.
fn parts_of_column(choice: Option<Candidate>) -> Parts
    ensures { result ≡ parts_of_column choice }
{
    match choice {
        None => one_number(12, 0),
        Some(c) => Parts {
            kind: 11,
            numbers: [0, 0, 0],
            places: [c.x, c.y, c.saving, 0],
        },
    }
}

// Returns the parts of an answer.
pub fn parts_of_answer(answer: Answer) -> Parts
    ensures { result ≡ parts_of_answer answer }
{
    match answer {
        Answer::Refused(number) => one_number(1, u64::from(number)),
        Answer::Length(length) => one_number(5, length),
        Answer::Counts(pins, steiner, edges) => Parts {
            kind: 6,
            numbers: [pins, steiner, edges],
            places: [0, 0, 0, 0],
        },
        Answer::Edge(x, y, u, v, length) => Parts {
            kind: 7,
            numbers: [length, 0, 0],
            places: [x, y, u, v],
        },
        Answer::NoEdge => one_number(8, 0),
        Answer::Degree(degree) => one_number(9, degree),
        Answer::Kinds(sensors, displays, controllers) => Parts {
            kind: 10,
            numbers: [sensors, displays, controllers],
            places: [0, 0, 0, 0],
        },
        Answer::Column(choice) => parts_of_column(choice),
    }
}

// Puts parts into the caller's arrays. Returns the kind.
pub fn put_parts(p: Parts, numbers: &mut [u64; 3], places: &mut [i32; 4]) -> u8
    ensures { parts_in result numbers.new places.new ≡ p }
{
    let Parts {
        kind,
        numbers: three,
        places: four,
    } = p;
    *numbers = three;
    *places = four;
    kind
}
