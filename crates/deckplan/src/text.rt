// What the program prints for a file.
ghost use Rattle.streams.specs.Counts.{IsPrefixLen};
ghost use Rattle.model.specs.File.{read_file, longest};
ghost use Rattle.listing.specs.Printed.{Prints, printed_size};
ghost use Rattle.deckplan.specs.Plan.{planned_file};

use deckfile::LONGEST;
use header::SHORTEST;
use listing::{Printed, list_refusal};
use planner::planner_plan;

// The text for a file at the front of `out`, which has to have room for LONGEST bytes: the file of its deck after a run to the end, or the line of its
// refusal. A number below SHORTEST is that of a refusal.
pub fn plan_file(file: &[u8], out: &mut [u8]) -> Printed
    ensures prints { Prints longest planned_file (read_file file.now) out.old out.new result }
    ensures prefix_len { IsPrefixLen (printed_size result) out.new }
{
    if out.len() < LONGEST {
        return Ok(0);
    }
    let n = planner_plan(file, out);
    // Stays: a test of the number, since the planner answers the number that C gets (SPEC 10.1).
    if n < SHORTEST {
        // Stays: `as`, since the number fits, as is proved; try_from would hand out an error that never comes.
        return Err(list_refusal(n as u8, out));
    }
    Ok(n)
}
