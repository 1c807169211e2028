// The three demands on the whole program: a crate of claims (specs/) and proofs, with no code.
#![tactic(auto)]
