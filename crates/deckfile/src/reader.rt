// The deck in working form that a file shows: checks 6 and 15.
ghost use Rattle.std.specs.Prelude.{◌≡◌, ◌*◌, ◌≤◌};
ghost use Rattle.arrays.specs.Same.{same_list};
ghost use Rattle.model.specs.State.{Valid, max_pins};
ghost use Rattle.model.specs.Sections as model;
ghost use Rattle.model.specs.File.{most_sections, kinds_place, file_state, run_section};
ghost use Rattle.points.specs.Coded.{max_steiner};
ghost use Rattle.working.specs.InOrder.{state_of};
ghost use Rattle.refusals.specs.Refusals.{number_of};
ghost use Rattle.sections.specs.Codes.{Decodes};
ghost use Rattle.deckfile.specs.ReadWorking.{TakenAs, WorkingFor, KindsFor, kinds_answer, last_answer};

use arrays::paste::put_items;
use deck::check::form_of;
use edges::edge_numbers;
use header::{
    EDGE_SIZE, EDGES, KINDS, PINS, POINT_SIZE, STEINER, has_kinds, is_plain, offset, size,
};
use points::kinds::{LARGEST_KIND, SENSOR, all_within, in_front};
use points::{MAX_PINS, MAX_STEINER, PLACES, Points};
use refusals::Refusal;
use sections::codes::FilePoints;
use sections::edges::same_edges;
use sections::file::FileBytes;
use working::Working;
use working::deck::WorkingDeck;

// The bytes that the most Steiner points of a deck take.
const STEINER_ROOM: usize = MAX_STEINER * POINT_SIZE;

// Returns a refusal by its number.
pub fn refuse(why: Refusal) -> Result<WorkingDeck, u8>
    ensures { result ≡ Err (number_of why) }
{
    Err(u8::from(why))
}

// The working form of a file's points, if they are those of a valid state. A valid state has at most MAX_STEINER Steiner points.
fn points_working(file: &FileBytes, found: &FilePoints) -> Option<Working>
    requires decodes { Decodes file.now.bytes.now found.now }
    requires b_bound { model.size file.now.bytes.now 1 ≤ 4 * max_steiner }
    ensures { WorkingFor (file_state file.now.bytes.now) result }
{
    let n = size(file.bytes, PINS) / POINT_SIZE;
    let m = size(file.bytes, STEINER) / POINT_SIZE;
    let mut steiner = [0u64; PLACES];
    put_items(&mut steiner, 0, &found.steiner[..m]);
    form_of(Points {
        pins: found.pins,
        npins: n,
        steiner,
        nsteiner: m,
    })
}

// Whether the third section holds the edges of a working form.
fn has_edges(file: &FileBytes, w: Working) -> bool
    requires { Valid (state_of w) }
    ensures { result ≡ same_list (model.section file.now.bytes.now 2) (run_section (state_of w)) }
{
    let n = size(file.bytes, EDGES);
    if n != EDGE_SIZE * w.nkeys {
        return false;
    }
    let at = offset(file.bytes, EDGES);
    let ends = edge_numbers(w);
    same_edges(&file.bytes[at..at + n], &ends[..w.nkeys])
}

// Check 15 on a section of kinds, for n pins: returns the kinds at the front of an array, if there is one for each pin, and all of them are
// kinds and not sensors alone.
fn kinds_of(file: &FileBytes, n: usize) -> Option<[u8; MAX_PINS]>
    requires b_value { model.section_count file.now.bytes.now ≡ most_sections }
    requires few { n ≤ max_pins }
    ensures { KindsFor (model.section file.now.bytes.now kinds_place) n result }
{
    if size(file.bytes, KINDS) != n {
        return None;
    }
    let at = offset(file.bytes, KINDS);
    let kinds = &file.bytes[at..at + n];
    if !all_within(kinds, LARGEST_KIND) || all_within(kinds, SENSOR) {
        return None;
    }
    Some(in_front(kinds))
}

// Check 15: returns the deck of the file, whose working form is given, without tails, or refusal 15.
fn with_kinds(file: &FileBytes, w: Working) -> Result<WorkingDeck, u8>
    requires { state_of w ≡ file_state file.now.bytes.now }
    ensures { TakenAs (kinds_answer file.now.bytes.now) result }
{
    let kinds = if has_kinds(file.bytes) {
        let Some(kinds) = kinds_of(file, w.points.npins) else {
            return refuse(Refusal::BadKind);
        };
        kinds
    } else {
        [SENSOR; MAX_PINS]
    };
    Ok(WorkingDeck {
        form: w,
        kinds,
        tail: 0,
    })
}

// Checks 6 and 15: a file that is not plain has the edges of its deck, and every file shows the points of a valid state; then the kinds.
// Returns the deck of the file, or the refusal.
pub fn working_of_file(file: &FileBytes, found: &FilePoints) -> Result<WorkingDeck, u8>
    requires { Decodes file.now.bytes.now found.now }
    ensures { TakenAs (last_answer file.now.bytes.now) result }
{
    if STEINER_ROOM < size(file.bytes, STEINER) {
        return refuse(Refusal::WrongTree);
    }
    let Some(form) = points_working(file, found) else {
        return refuse(Refusal::WrongTree);
    };
    if !is_plain(file.bytes) && !has_edges(file, form) {
        return refuse(Refusal::WrongTree);
    }
    with_kinds(file, form)
}
