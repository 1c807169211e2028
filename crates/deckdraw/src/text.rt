// What the program prints for a file.
ghost use Rattle.streams.specs.Counts.{IsPrefixLen};
ghost use Rattle.model.specs.File.{read_file};
ghost use Rattle.listing.specs.Printed.{Prints, printed_size};
ghost use Rattle.picture.specs.Picture.{picture_of};
ghost use Rattle.picture.specs.Rooms.{picture_room};

use listing::{Printed, list_refusal};
use picture::{PICTURE_ROOM, draw_working};

// The text for a file at the front of `out`, which has to have room for PICTURE_ROOM bytes: the picture of its deck, or the line of its refusal.
pub fn draw_file(file: &[u8], out: &mut [u8]) -> Printed
    ensures prints { Prints picture_room picture_of (read_file file.now) out.old out.new result }
    ensures prefix_len { IsPrefixLen (printed_size result) out.new }
{
    if out.len() < PICTURE_ROOM {
        return Ok(0);
    }
    match deckfile::take_file(file) {
        Ok(deck) => Ok(draw_working(deck, out)),
        Err(n) => Err(list_refusal(n, out)),
    }
}
