// The header and the sections of a deck file in bytes: their checks, the codes of points, and the edges compared.
#![tactic(auto)]

pub mod codes;
pub mod edges;
pub mod file;
