//! What a store's tree gives back of the state that led to it.
#![tactic(auto)]

pub mod laws;
