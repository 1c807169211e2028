// The table of arrows: the constant, and the same numbers worked out by the octants.
#![tactic(auto)]

pub mod arrows;

ghost use Rattle.std.specs.Prelude.{◌≡◌};
ghost use Rattle.table.specs.Table.{arrow_table};

use arrows::ARROWS;
use octants::octant;

// The largest difference in the table, and the smallest.
pub const LIMIT: i32 = 15;

pub const LOWEST: i32 = -LIMIT;

// How many entries a row of the table has: those of one dy.
pub const ROW: usize = 31;

// How many entries the table has.
pub const ARROW_COUNT: usize = ROW * ROW;

// Returns the whole constant.
pub fn constant() -> [u8; ARROW_COUNT]
    ensures { result ≡ arrow_table }
{
    ARROWS
}

// Returns the numbers of the table, worked out by the octants and not read from the constant.
pub fn worked_out() -> [u8; ARROW_COUNT]
    ensures { result ≡ arrow_table }
{
    let mut numbers = [0u8; ARROW_COUNT];
    for i in 0..ARROW_COUNT {
        // Stays: `as`, since the number fits, as is proved; try_from would hand out an error that never comes.
        let dx = (i % ROW) as i32 - LIMIT;
        let dy = (i / ROW) as i32 - LIMIT;
        numbers[i] = octant(dx, dy);
    }
    numbers
}
