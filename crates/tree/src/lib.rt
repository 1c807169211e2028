// The one routine that joins points by the least cable. Points are two slices of stored coordinates, and an edge is a key.
#![tactic(auto)]

pub mod build;
pub mod list;
