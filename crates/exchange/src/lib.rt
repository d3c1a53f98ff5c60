//! One more cell of a flow in a frame that is on air, by the exchange of Slepian and Duguid: what Add answers and leaves, and its laws.
#![tactic(auto)]
