//! That an opening of a valid tree begins with what the tree gives back.
#![tactic(auto)]

pub mod laws;
