// The section of edges (SPEC 7.3: runs).
ghost use Rattle.std.specs.Prelude.{◌≡◌, ◌*◌, length};
ghost use Rattle.arrays.specs.Same.{same_list};
ghost use Rattle.sections.specs.Bytes.{edge_bytes};

use header::EDGE_SIZE;
use plane::PLACES;

// An edge is kept as FACTOR times the number of its lower end and the number of its higher end.
// Stays: `as`, since a constant calls no From.
const FACTOR: u64 = PLACES as u64;

// Returns whether these bytes are those of the edges.
pub fn same_edges(b: &[u8], ends: &[u64]) -> bool
    requires { length b.now ≡ 2 * length ends.now }
    ensures { result ≡ same_list b.now (edge_bytes ends.now) }
{
    for (i, edge) in ends.iter().enumerate() {
        let at = EDGE_SIZE * i;
        if u64::from(b[at]) != edge / FACTOR % 256 || u64::from(b[at + 1]) != edge % FACTOR {
            return false;
        }
    }
    true
}
