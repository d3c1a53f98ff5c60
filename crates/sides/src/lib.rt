//! Turn, and that the sides of a frame agree: definitions (specs/) and their laws (proofs/), no code.
#![tactic(auto)]
