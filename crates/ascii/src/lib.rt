// Numbers in base ten and the line of a refusal, written from a place of a slice on. Each function returns the place behind what it wrote.
#![tactic(auto)]

pub mod encode;
pub mod line;

ghost use Rattle.std.specs.Prelude.{◌≡◌, ◌+◌, ◌≤◌, nat_abs, length, drop};
ghost use Rattle.model.specs.Listing as model;
ghost use Rattle.arrays.specs.Paste.{Pasted};
ghost use Rattle.ascii.specs.Text.{most_digits, signed_room, field_room, signed_field_room, fields_room, refused_room};

use arrays::paste::{put_byte, put_items};

// The most digits of a number of 64 bits.
const DIGITS: usize = 20;

// The digits of n in base ten at the end of the places. Returns where they start.
fn digits(n: u64, places: &mut [u8; DIGITS]) -> usize
    ensures upper_bound { result ≤ most_digits }
    ensures places_after { drop result places.new ≡ model.decimal n }
{
    let mut rest = n;
    for i in (0..DIGITS).rev() {
        // Stays: `as`, since the number fits, as is proved; try_from would hand out an error that never comes.
        places[i] = b'0' + (rest % 10) as u8;
        if rest < 10 {
            return i;
        }
        rest /= 10;
    }
    0
}

// Puts a number in base ten, at most 20 digits, from place `at` on. Returns the place behind it.
pub fn decimal(out: &mut [u8], at: usize, n: u64) -> usize
    requires { at + most_digits ≤ length out.old }
    ensures pasted { Pasted (model.decimal n) out.old out.new at result }
    ensures upper_bound { result ≤ at + most_digits }
{
    let mut places = [0u8; DIGITS];
    let start = digits(n, &mut places);
    put_items(out, at, &places[start..])
}

// Puts a whole number in base ten from place `at` on, with a minus sign in front of a negative one. Returns the place behind it.
pub fn signed(out: &mut [u8], at: usize, z: i32) -> usize
    requires { at + signed_room ≤ length out.old }
    ensures pasted { Pasted (model.signed_decimal z) out.old out.new at result }
    ensures upper_bound { result ≤ at + signed_room }
{
    let next = if z < 0 { put_byte(out, at, b'-') } else { at };
    decimal(out, next, u64::from(z.unsigned_abs()))
}

// Puts a space and a number. Returns the place behind them.
pub fn decimal_field(out: &mut [u8], at: usize, n: u64) -> usize
    requires { at + field_room ≤ length out.old }
    ensures pasted { Pasted (model.field (model.decimal n)) out.old out.new at result }
    ensures upper_bound { result ≤ at + field_room }
{
    let next = put_byte(out, at, b' ');
    decimal(out, next, n)
}

// Puts three numbers, each with a space in front. Returns the place behind them.
pub fn number_fields(out: &mut [u8], at: usize, a: u64, b: u64, c: u64) -> usize
    requires { at + fields_room ≤ length out.old }
    ensures pasted { Pasted (model.number_fields a b c) out.old out.new at result }
    ensures upper_bound { result ≤ at + fields_room }
{
    let second = decimal_field(out, at, a);
    let third = decimal_field(out, second, b);
    decimal_field(out, third, c)
}

// Puts a space and a whole number. Returns the place behind them.
pub fn signed_field(out: &mut [u8], at: usize, z: i32) -> usize
    requires { at + signed_field_room ≤ length out.old }
    ensures pasted { Pasted (model.field (model.signed_decimal z)) out.old out.new at result }
    ensures upper_bound { result ≤ at + signed_field_room }
{
    let next = put_byte(out, at, b' ');
    signed(out, next, z)
}

// Puts the line of a refusal by its number from place `at` on. Returns the place behind it.
pub fn refused_line(out: &mut [u8], at: usize, n: u64) -> usize
    requires { at + refused_room ≤ length out.old }
    ensures { Pasted (model.refused_line n) out.old out.new at result }
{
    let a = put_items(out, at, b"refused");
    let b = decimal_field(out, a, n);
    put_byte(out, b, b'\n')
}
