//! That the guards of the core can be met by a clone and a drop: a concrete journal of allowed entries, from an empty store.
#![tactic(auto)]

pub mod laws;
