// What the program prints for a file.
ghost use Rattle.std.specs.Prelude.{length};
ghost use Rattle.streams.specs.Counts.{IsPrefixLen};
ghost use Rattle.model.specs.Listing.{listing_of_file};
ghost use Rattle.arrays.specs.Paste.{Pasted};
ghost use Rattle.ascii.specs.Text.{fitting};
ghost use Rattle.listing.specs.Whole.{listing_room};

use calls::run_to_end;
use listing::LISTING_ROOM;

// The text for a file at the front of `out`, which has to have room for LISTING_ROOM bytes. Returns its length; 0 where there is no room.
pub fn list_file(file: &[u8], out: &mut [u8]) -> usize
    ensures pasted { Pasted (fitting listing_room out.old (listing_of_file file.now)) out.old out.new 0 result }
    ensures prefix_len { IsPrefixLen result out.new }
{
    if out.len() < LISTING_ROOM {
        return 0;
    }
    match deckfile::take_file(file) {
        Ok(deck) => listing::list_working(run_to_end(deck).working, out),
        Err(n) => listing::list_refusal(n, out),
    }
}
