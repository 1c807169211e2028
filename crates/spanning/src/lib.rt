// Spanning trees of any weighted graph: a crate of definitions (specs/) and proofs, with no code.
#![tactic(auto)]
