//! What a store's tree tells of the state that led to it.
#![tactic(auto)]

pub mod laws;
