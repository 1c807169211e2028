// The questions on a deck in working form.
#![tactic(auto)]

ghost use Rattle.std.specs.Prelude.{◌≡◌, T};
ghost use Rattle.model.specs.Contents.{ValidContents};
ghost use Rattle.model.specs.Question as question;
ghost use Rattle.plane.specs.Code.{point_of, is_code};
ghost use Rattle.working.specs.InOrder.{state_of};
ghost use Rattle.working.specs.WorkingDeck.{contents_of};
ghost use Rattle.questions.specs.Answers.{length_answer, counts_answer, kinds_answer, coded_answer, edge_at_answer, degree_answer, column_at};

use columns::Candidate;
use edges::{CodedEdge, edge_numbers};
use measures::measure;
use plane::codes::{locate, x_of, y_of};
use working::Working;
use working::deck::WorkingDeck;

// What a question answers: a refusal by its number; the length; the counts of pins, Steiner points and edges; an edge by its
// lower end, its higher end and its length, or that there is none at the place; the number of edges at a point; the lengths of the kinds 0, 1 and 2; the
// candidate of a column with its saving, or that there is none.
// Stays: a refusal by its number, not by its name, as in the definition `asked` and in `Demand1.unsound_question`.
#[derive(Clone, Copy)]
pub enum Answer {
    Refused(u8),
    Length(u64),
    Counts(u64, u64, u64),
    Edge(i32, i32, i32, i32, u64),
    NoEdge,
    Degree(u64),
    Kinds(u64, u64, u64),
    Column(Option<Candidate>),
}

// An edge, as the answer.
fn answer_of(e: CodedEdge) -> Answer
    ensures { result ≡ coded_answer e }
{
    let x = plane::to_signed(x_of(e.low));
    let y = plane::to_signed(y_of(e.low));
    let u = plane::to_signed(x_of(e.high));
    let v = plane::to_signed(y_of(e.high));
    Answer::Edge(x, y, u, v, e.length)
}

// The number of edges at a place in range, 0 where no point is held.
fn degree_of(w: Working, k: u64) -> usize
    requires t { T (is_code k) }
    ensures { result ≡ question.edge_count_at (point_of k) (state_of w) }
{
    let codes = &w.codes[..w.npoints];
    if !sorted::has(codes, k) {
        return 0;
    }
    tree::list::degree_of(&w.keys[..w.nkeys], sorted::index_of(codes, k))
}

// Returns the length of the tree.
pub fn length(d: WorkingDeck) -> Answer
    requires { ValidContents (contents_of d) }
    ensures { result ≡ length_answer (contents_of d) }
{
    Answer::Length(measure(d).length)
}

// Returns the numbers of pins, Steiner points and edges.
pub fn counts(d: WorkingDeck) -> Answer
    requires { ValidContents (contents_of d) }
    ensures { result ≡ counts_answer (contents_of d) }
{
    let m = measure(d);
    Answer::Counts(m.pins, m.steiner, m.edges)
}

// Returns how long the edges of each kind of device are together.
pub fn kind_lengths(d: WorkingDeck) -> Answer
    requires valid_contents { ValidContents (contents_of d) }
    ensures { result ≡ kinds_answer (contents_of d) }
{
    let lengths = measures::kind_lengths(d);
    Answer::Kinds(lengths[0], lengths[1], lengths[2])
}

// Returns the edge at a place of the listing order, counted from 0, or that there is none.
pub fn edge_at(d: WorkingDeck, i: usize) -> Answer
    requires { ValidContents (contents_of d) }
    ensures { result ≡ edge_at_answer i (contents_of d) }
{
    if d.form.nkeys <= i {
        return Answer::NoEdge;
    }
    let ends = edge_numbers(d.form);
    answer_of(edges::edge_at(d.form, &ends, i, d.tail))
}

// Returns how many edges a point has, 0 where it is not held.
pub fn degree_at(d: WorkingDeck, x: i32, y: i32) -> Answer
    ensures { result ≡ degree_answer (record { x = x; y = y }) (contents_of d) }
{
    match locate(x, y) {
        None => Answer::Degree(0),
        // Stays: `as`, since no From takes a usize to a u64.
        Some(k) => Answer::Degree(degree_of(d.form, k) as u64),
    }
}

// Returns the lowest of the candidates with this x that have the greatest saving, with that saving, or that there is none.
pub fn column(d: WorkingDeck, x: i32) -> Answer
    requires { ValidContents (contents_of d) }
    ensures { result ≡ column_at x (contents_of d) }
{
    Answer::Column(columns::column(d.form, x, d.tail))
}
