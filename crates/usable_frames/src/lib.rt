//! Frames in which no entry is wrong and no slot uses a port of the other side twice: what they are, and the laws of their slots.
#![tactic(auto)]
