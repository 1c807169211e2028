// The file of points and edges kept as numbers, and of kinds. Where all pins are sensors, which `bare` says, it has no section of kinds.
ghost use Rattle.std.specs.Prelude.{◌≡◌, ◌+◌, ◌-◌, ◌≤◌, length};
ghost use mathlib.Core.List.{flatten};
ghost use Rattle.arrays.specs.Paste.{Pasted};
ghost use Rattle.model.specs.State.{max_pins};
ghost use Rattle.model.specs.Sections.{header_size, header, file_size};
ghost use Rattle.model.specs.File.{kind_sections, sizes_of};
ghost use Rattle.points.specs.Coded.{max_steiner};
ghost use Rattle.buffer.specs.Parts.{tree_parts, file_parts, PartsFit};

use super::{put_edges, put_header, put_points};
use arrays::paste::put_items;
use header::{EDGE_SIZE, PAIR_SIZE, POINT_SIZE, SHORTEST};
use tree::list::edges_of;

// Returns how many bytes the file of n pins and m Steiner points has.
pub fn length_for(n: usize, m: usize, bare: bool) -> usize
    requires { (n ≤ max_pins) × (m ≤ max_steiner) }
    ensures { result ≡ file_size (sizes_of n m (n + m - 1) bare) }
{
    let size = SHORTEST + POINT_SIZE * n + POINT_SIZE * m + EDGE_SIZE * edges_of(n + m);
    if bare { size } else { size + PAIR_SIZE + n }
}

// Puts the header of the file of n pins, m Steiner points and e edges. Returns the place behind it.
pub fn put_file_header(n: usize, m: usize, e: usize, bare: bool, out: &mut [u8]) -> usize
    requires bare_in_bounds { header_size (length (sizes_of n m e bare)) ≤ length out.old }
    requires n_le_max_pins { (n ≤ max_pins) × (m ≤ max_steiner) × (e ≤ max_pins + max_steiner) }
    ensures { Pasted (header (sizes_of n m e bare)) out.old out.new 0 result }
{
    let pins = POINT_SIZE * n;
    let steiner = POINT_SIZE * m;
    let edges = EDGE_SIZE * e;
    if bare {
        put_header(&[pins, steiner, edges], out)
    } else {
        put_header(&[pins, steiner, edges, n], out)
    }
}

// Stays: `bare` beside the kinds, and no Option of them: `kind_sections` and `sizes_of` of the model take the test, and so do the length and
// the header, which have no kinds.
// Puts these kinds from place `at` on, or nothing where all pins are sensors. Returns the place behind them.
pub fn put_kinds(kinds: &[u8], bare: bool, out: &mut [u8], at: usize) -> usize
    requires { at + length (flatten (kind_sections bare kinds.now)) ≤ length out.old }
    ensures { Pasted (flatten (kind_sections bare kinds.now)) out.old out.new at result }
{
    if bare { at } else { put_items(out, at, kinds) }
}

// Puts the header and the sections of pins, Steiner points and the edges of their tree, and returns the place behind them.
fn put_tree(pins: &[u64], steiner: &[u64], ends: &[u64], bare: bool, out: &mut [u8]) -> usize
    requires { PartsFit pins.now steiner.now ends.now bare out.old }
    ensures { Pasted (tree_parts pins.now steiner.now ends.now bare) out.old out.new 0 result }
{
    let first = put_file_header(pins.len(), steiner.len(), ends.len(), bare, out);
    let second = put_points(pins, out, first);
    let third = put_points(steiner, out, second);
    put_edges(ends, out, third)
}

// Puts the file of pins, Steiner points, the edges of their tree and the kinds of the pins, and returns its length.
pub fn put_parts(
    pins: &[u64],
    steiner: &[u64],
    ends: &[u64],
    kinds: &[u8],
    bare: bool,
    out: &mut [u8],
) -> usize
    requires parts_fit { PartsFit pins.now steiner.now ends.now bare out.old }
    requires kinds_count { length kinds.now ≡ length pins.now }
    ensures { Pasted (file_parts pins.now steiner.now ends.now kinds.now bare) out.old out.new 0 result }
{
    let fourth = put_tree(pins, steiner, ends, bare, out);
    put_kinds(kinds, bare, out, fourth)
}
