// Arrays of numbers, below everything else: no point and no graph is known here.
#![tactic(auto)]

pub mod number;
pub mod paste;
pub mod same;
