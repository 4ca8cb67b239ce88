//! What allowed entries make of a store's tree.
#![tactic(auto)]

pub mod laws;
