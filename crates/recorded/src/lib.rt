// The Rust original's recorded answers, computed by the rules. This crate is its specs/ (the answers) and its proofs/ (that the rules give
// them); it has no code.

#![tactic(auto)]
