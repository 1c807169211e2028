// The struct of a line so far, apart from what is said of it.
ghost use Rattle.std.specs.Prelude.{◌≤◌};
ghost use Rattle.lines.specs.Lines.{input_room};

use super::INPUT_ROOM;

// The line of an input so far: `size` bytes at the front of an array.
#[derive(Clone, Copy)]
pub struct Line {
    pub(crate) bytes: [u8; INPUT_ROOM],
    pub(crate) size: usize,
    ghost fits: { size ≤ input_room },
}
