//! Words, flows, frames and the splitting rules: definitions (specs/) and their laws (proofs/), no code.
#![tactic(auto)]
