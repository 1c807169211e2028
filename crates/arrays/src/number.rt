// Numbers in bytes, little-endian.
ghost use Rattle.std.specs.Prelude.{◌≡◌, ◌+◌, ◌≤◌, ◌<◌, length};
ghost use Rattle.arrays.specs.Number as number;
ghost use Rattle.arrays.specs.Paste.{Pasted};

use crate::paste::put_items;

// Returns the number in the two bytes from place i on, the low one first.
pub fn number2(b: &[u8], i: usize) -> usize
    requires { i + 2 ≤ length b.now }
    ensures { (result ≡ number.number2 b.now i) × (result < 65536) }
{
    usize::from(u16::from_le_bytes([b[i], b[i + 1]]))
}

// Returns the number in the four bytes from place i on, the lowest first.
pub fn number4(b: &[u8], i: usize) -> usize
    requires { i + 4 ≤ length b.now }
    ensures { (result ≡ number.number4 b.now i) × (result < 4294967296) }
{
    // Stays: `as`, since no From takes a u32 to a usize.
    u32::from_le_bytes([b[i], b[i + 1], b[i + 2], b[i + 3]]) as usize
}

// Puts a number in two bytes from place `at` on, the low one first. Returns the place behind them.
pub fn put2(out: &mut [u8], at: usize, n: usize) -> usize
    requires { at + 2 ≤ length out.old }
    ensures { Pasted (number.bytes2 n) out.old out.new at result }
{
    // Stays: `as`, since the number fits, as is proved; try_from would hand out an error that never comes.
    put_items(out, at, &((n % 65536) as u16).to_le_bytes())
}

// Puts a number in four bytes from place `at` on, the lowest first. Returns the place behind them.
pub fn put4(out: &mut [u8], at: usize, n: usize) -> usize
    requires { at + 4 ≤ length out.old }
    ensures { Pasted (number.bytes4 n) out.old out.new at result }
{
    // Stays: `as`, since the number fits, as is proved; try_from would hand out an error that never comes.
    put_items(out, at, &((n % 4294967296) as u32).to_le_bytes())
}
