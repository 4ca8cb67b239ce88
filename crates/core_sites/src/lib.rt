//! What the operations of the core make of a store's tree, and that the store does not refuse them.
#![tactic(auto)]

pub mod laws;
