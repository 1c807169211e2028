// The file of a deck in working form.
#![tactic(auto)]

ghost use Rattle.std.specs.Prelude.{◌≡◌, ◌≤◌, length};
ghost use Rattle.model.specs.Contents.{ValidContents};
ghost use Rattle.model.specs.File.{file_of};
ghost use Rattle.working.specs.WorkingDeck.{contents_of};
ghost use Rattle.arrays.specs.Paste.{Pasted};

use buffer::file::{length_for, put_parts};
use edges::edge_numbers;
use plain_file::is_bare;
use working::deck::WorkingDeck;

// Returns how many bytes the file has.
pub fn file_length(w: WorkingDeck) -> usize
    requires valid_contents { ValidContents (contents_of w) }
    ensures { result ≡ length (file_of (contents_of w)) }
{
    length_for(w.form.points.npins, w.form.points.nsteiner, is_bare(w))
}

// Puts the file into a buffer that has room for it, and returns its length.
pub fn put_file(w: WorkingDeck, out: &mut [u8]) -> usize
    requires valid_contents { ValidContents (contents_of w) }
    requires w_in_bounds { length (file_of (contents_of w)) ≤ length out.old }
    ensures { Pasted (file_of (contents_of w)) out.old out.new 0 result }
{
    let ends = edge_numbers(w.form);
    let q = w.form.points;
    put_parts(
        &q.pins[..q.npins],
        &q.steiner[..q.nsteiner],
        &ends[..w.form.nkeys],
        &w.kinds[..q.npins],
        is_bare(w),
        out,
    )
}
