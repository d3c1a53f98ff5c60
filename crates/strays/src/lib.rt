//! How far the cells of a load may stray from their share: definitions (specs/) and their laws (proofs/), no code.
#![tactic(auto)]
