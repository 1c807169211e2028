// The length of the tree with one crossing more, without touching the tree: from the tree's length, a table of its bottlenecks,
// and the nearest point on each of four sides of the crossing.
#![tactic(auto)]

pub mod gain;
pub mod length;
