//! That the files of the core have what the plain machine has, in every state that allowed entries lead to.
#![tactic(auto)]

pub mod laws;
