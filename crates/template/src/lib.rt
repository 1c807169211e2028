// Texts with places for numbers: `%` stands for the next number, and `@` for the coordinate that it holds.
#![tactic(auto)]

ghost use Rattle.std.specs.Prelude.{◌+◌, ◌*◌, ◌≤◌, length};
ghost use Rattle.plane.specs.Coordinate.{coordinate};
ghost use Rattle.model.specs.Listing.{signed_decimal};
ghost use Rattle.arrays.specs.Paste.{Pasted};
ghost use Rattle.template.specs.Template.{number_room, filled, Puts};

use arrays::paste::put_byte;
use ascii::{decimal, signed};
use plane::{BASE, to_signed};

// Where the text goes on, and how many numbers are used.
#[derive(Clone, Copy)]
pub struct Place {
    pub next: usize,
    pub used: usize,
}

// A coordinate, given in its stored form.
fn put_coordinate(out: &mut [u8], at: usize, u: u16) -> usize
    requires { at + number_room ≤ length out.old }
    ensures pasted { Pasted (signed_decimal (coordinate u)) out.old out.new at result }
    ensures upper_bound { result ≤ at + number_room }
{
    signed(out, at, to_signed(u))
}

// One byte of a template, of whose numbers the first `used` are used.
// Stays: all numbers and how many are used, since `Puts` speaks of both.
fn put_item(out: &mut [u8], at: usize, b: u8, numbers: &[u64], used: usize) -> Place
    requires number_room_in_bounds { at + number_room ≤ length out.old }
    requires used_in_bounds { used ≤ length numbers.now }
    ensures { Puts b numbers.now out.old out.new at used result }
{
    if used == numbers.len() {
        return Place {
            next: put_byte(out, at, b),
            used,
        };
    }
    match b {
        b'%' => Place {
            next: decimal(out, at, numbers[used]),
            used: used + 1,
        },
        b'@' => Place {
            // Stays: `as`, since the number fits, as is proved; try_from would hand out an error that never comes.
            next: put_coordinate(out, at, (numbers[used] % BASE) as u16),
            used: used + 1,
        },
        _ => Place {
            next: put_byte(out, at, b),
            used,
        },
    }
}

// Puts a template with its numbers from place `at` on. Returns the place behind it.
pub fn fill(out: &mut [u8], at: usize, template: &[u8], numbers: &[u64]) -> usize
    requires { at + (length template.now + number_room * length numbers.now) + number_room ≤ length out.old }
    ensures pasted { Pasted (filled template.now numbers.now) out.old out.new at result }
    ensures upper_bound { result ≤ at + (length template.now + number_room * length numbers.now) }
{
    let mut next = at;
    let mut used = 0;
    for b in template {
        let p = put_item(out, next, *b, numbers, used);
        next = p.next;
        used = p.used;
    }
    next
}
