// Standard output, where a write may fail: the first error is kept, and nothing is written after it. So playing goes on by itself, and `main` sees the error.
ghost use Rattle.std.specs.Prelude.{◌≡◌, OnErr, IsOk};
ghost use Rattle.std.specs.Result.{is_err};

use std::io;
use std::io::Stdout;

#[derive(Drop)]
pub struct Output {
    to: Stdout,
    written: io::Result<()>,
}

impl Output {
    // Nothing was written so far, and nothing failed.
    pub fn new(to: Stdout) -> Output
        ensures { IsOk result.written }
    {
        Output {
            to,
            written: Ok(()),
        }
    }

    // Writes the bytes, unless a write failed.
    pub fn put(&mut self, bytes: &[u8])
        ensures { OnErr self.old.written (self.new ≡ self.old) }
    {
        if self.written.is_ok() {
            self.written = self.to.write_all(bytes);
        }
    }

    // Returns whether a write failed.
    pub fn has_failed(&self) -> bool
        ensures { result ≡ is_err self.now.written }
    {
        self.written.is_err()
    }

    // Returns the first error, if a write failed.
    pub fn finish(self) -> io::Result<()>
        ensures { result ≡ self.written }
    {
        self.written
    }
}
