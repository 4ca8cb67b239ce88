//! That journals leave valid trees: a concrete one, from an empty store.
#![tactic(auto)]

pub mod laws;
