// What docs/SPEC.md promises, as definitions on pins and Steiner points, with the proofs about them. It holds no code.
#![tactic(auto)]
