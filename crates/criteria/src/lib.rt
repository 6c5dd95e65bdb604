// Criteria: the tests by which the open moves are listed. The crate is their definitions (specs/) and the theorems about them (proofs/); it has no code.
#![tactic(auto)]
