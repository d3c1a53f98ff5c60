//! The wire and demand 3: definitions (specs/) and their laws (proofs/), no code.
#![tactic(auto)]
