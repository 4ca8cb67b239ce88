//! That the guards of the core can be met: concrete journals of allowed entries, from an empty store.
#![tactic(auto)]

pub mod laws;
