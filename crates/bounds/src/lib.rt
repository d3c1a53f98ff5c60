//! Bounds beyond demand 3: definitions (specs/) and their laws (proofs/), no code.
#![tactic(auto)]
