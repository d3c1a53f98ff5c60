//! The sheet and the response to it: definitions (specs/) and their laws (proofs/), no code.
#![tactic(auto)]
