// The line of an input so far, and what the lines of an input change.
#![tactic(auto)]

mod line;

ghost use Rattle.std.specs.Prelude.{◌≡◌, ◌≤◌, List, [], ℕ, length, take};
ghost use Rattle.lines.specs.Lines.{input_room, more, last_line, taken_all, state_after};
ghost use Rattle.lines.specs.Line.{line_of, reading_of};

pub use line::Line;

// The most bytes of a line; a longer one is an error.
pub const LINE_LIMIT: usize = 4000;

// Of a line this many bytes are kept at most, which is one too many.
pub const INPUT_ROOM: usize = LINE_LIMIT + 1;

// What the lines of an input change, each in its turn.
pub trait TakesLines {
    // What is known of it, how a line changes that, and when it may take a line.
    ghost Known: { Type 0 };

    ghost known: { Self → Known };

    ghost after: { Known → List ℕ → Known };

    ghost ready: { Self → Type 0 };

    // One more line, which is given without its line feed.
    fn take_line(&mut self, line: &[u8])
        requires { ready self.old }
        ensures ready { ready self.new }
        ensures known { known self.new ≡ after (known self.old) line.now };
}

// Puts one more byte behind the first `size` bytes of `line`, or drops it where there is no room. Returns how many there are then.
pub fn push(line: &mut [u8], size: usize, b: u8) -> usize
    requires line_len { length line.old ≡ input_room }
    requires size_le_input_room { size ≤ input_room }
    ensures upper_bound { result ≤ input_room }
    ensures line_after { take result line.new ≡ more b (take size line.old) }
{
    if INPUT_ROOM <= size {
        return size;
    }
    line[size] = b;
    size + 1
}

impl Line {
    // Returns a line of which nothing was read.
    pub fn new() -> Line
        ensures { line_of result ≡ [] }
    {
        Line {
            bytes: [0; INPUT_ROOM],
            size: 0,
        }
    }

    // Puts one more byte behind the others, or drops it where there is no room.
    fn push(&mut self, b: u8)
        ensures { line_of self.new ≡ more b (line_of self.old) }
    {
        self.size = push(&mut self.bytes, self.size, b);
    }

    // Takes the bytes that were read: a line feed ends a line, any other byte is one more of it.
    pub fn take_all<T: TakesLines>(&mut self, bytes: &[u8], to: &mut T)
        requires { T.ready to.old }
        ensures ready { T.ready to.new }
        ensures taken { reading_of (T.known to.new) self.new ≡ taken_all T.after (reading_of (T.known to.old) self.old) bytes.now }
    {
        for &b in bytes {
            if b == b'\n' {
                to.take_line(&self.bytes[..self.size]);
                self.size = 0;
            } else {
                self.push(b);
            }
        }
    }

    // The end of an input: bytes behind the last line feed are a line too.
    pub fn finish<T: TakesLines>(&self, to: &mut T)
        requires { T.ready to.old }
        ensures ready { T.ready to.new }
        ensures taken { T.known to.new ≡ state_after T.after (T.known to.old) (last_line (line_of self.now)) }
    {
        if 0 < self.size {
            to.take_line(&self.bytes[..self.size]);
        }
    }
}
