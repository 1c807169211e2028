// The nearest point on each of four sides of a crossing, for all rows of a column at a time.
//
// The sides of a crossing are cut by its diagonals: east and west, where a point's difference in y is no larger than that in x, and
// north and south, where it is larger. A ray is an edge from the crossing to a point as one number: its length times 128, and
// the point's number.
#![tactic(auto)]

pub mod nearest;
pub mod rows;
