//! Queues, waits, rows and lines: definitions (specs/) and their laws (proofs/), no code.
#![tactic(auto)]
