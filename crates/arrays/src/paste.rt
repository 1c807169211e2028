// Items put over a part of an array. Each function returns the place behind them.
ghost use Rattle.std.specs.Prelude.{[], ◌∷◌, ◌+◌, ◌≤◌, ◌<◌, length};
ghost use Rattle.arrays.specs.Paste.{Pasted};

// Puts one byte at place `at`. Returns the place behind it.
pub fn put_byte(out: &mut [u8], at: usize, b: u8) -> usize
    requires { at < length out.old }
    ensures { Pasted (b ∷ []) out.old out.new at result }
{
    out[at] = b;
    at + 1
}

// Puts the items of another slice from place `at` on. Returns the place behind them.
pub fn put_items<T: Copy>(out: &mut [T], at: usize, items: &[T]) -> usize
    requires { at + length items.now ≤ length out.old }
    ensures { Pasted items.now out.old out.new at result }
{
    let end = at + items.len();
    out[at..end].copy_from_slice(items);
    end
}
