//! What holds of the core in every state that allowed entries lead to.
#![tactic(auto)]

pub mod laws;
