// The frame of a picture (SPEC 9.9): the box around the points of a deck, and where in the picture a point is drawn.
#![tactic(auto)]

ghost use Rattle.std.specs.Prelude.{◌≡◌, ◌≤◌, length, MatchOption, IfSome, EachIndex, SomeIndex, slice_index};
ghost use Rattle.arrays.specs.Tab.{tab};
ghost use Rattle.plane.specs.Coordinate.{coordinate};
ghost use Rattle.frame.specs.Frame.{most_side, box_of, long_side, across_at, down_at};
ghost use Rattle.frame.specs.Stored.{stored_point, box_in};

use plane::apart;

// The stored form of coordinate 0.
const ORIGIN: u16 = 30000;

// Units of the picture for a centimetre.
pub const SCALE: u64 = 400;

// Between the left side of the picture and its middle, and above the highest point, as multiples of the longer side of the box.
const MIDDLE: u64 = 220;

const MARGIN: u64 = 20;

// The box around points: its left and its upper side, in stored form, its width and its height.
#[derive(Clone, Copy)]
pub struct Frame {
    pub left: u16,
    pub top: u16,
    pub width: u16,
    pub height: u16,
}

// The least of some coordinates.
fn least(values: &[u16]) -> Option<u16>
    ensures bound { MatchOption result (length values.now ≡ 0) (λ m. EachIndex values.now (λ k. m ≤ slice_index values.now k)) }
    ensures member { IfSome result (λ m. SomeIndex values.now (λ k. slice_index values.now k ≡ m)) }
{
    values.iter().copied().min()
}

// The greatest of some coordinates.
fn greatest(values: &[u16]) -> Option<u16>
    ensures bound { MatchOption result (length values.now ≡ 0) (λ m. EachIndex values.now (λ k. slice_index values.now k ≤ m)) }
    ensures member { IfSome result (λ m. SomeIndex values.now (λ k. slice_index values.now k ≡ m)) }
{
    values.iter().copied().max()
}

impl Frame {
    // Returns the frame of some points, given by their x and by their y.
    pub fn around(xs: &[u16], ys: &[u16]) -> Self
        requires { length xs.now ≡ length ys.now }
        ensures { box_in result ≡ box_of (tab (stored_point xs.now ys.now) (length xs.now)) }
    {
        let left = least(xs).unwrap_or(ORIGIN);
        let right = greatest(xs).unwrap_or(ORIGIN);
        let bottom = least(ys).unwrap_or(ORIGIN);
        let top = greatest(ys).unwrap_or(ORIGIN);
        Frame {
            left,
            top,
            width: apart(left, right),
            height: apart(bottom, top),
        }
    }

    // Returns the longer side of the box, 1 at least: all sizes in the picture are multiples of it.
    pub fn long_side(self) -> u64
        ensures value { result ≡ long_side (box_in self) }
        ensures lower_bound { (self.width ≤ result) × (result ≤ most_side) }
    {
        u64::from(self.width.max(self.height).max(1))
    }

    // Returns how far from the left side of the picture a point with this stored x is drawn.
    pub fn across(self, x: u16) -> u64
        ensures { result ≡ across_at (box_in self) (coordinate x) }
    {
        let from_left = u64::from(apart(self.left, x));
        MIDDLE * self.long_side() - SCALE / 2 * u64::from(self.width) + SCALE * from_left
    }

    // Returns how far from the upper side of the picture a point with this stored y is drawn.
    pub fn down(self, y: u16) -> u64
        ensures { result ≡ down_at (box_in self) (coordinate y) }
    {
        MARGIN * self.long_side() + SCALE * u64::from(apart(y, self.top))
    }
}
