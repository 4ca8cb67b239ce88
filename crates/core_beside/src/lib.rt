//! That the entries of a region may stand beside each other.
#![tactic(auto)]

pub mod laws;
