//! That the cells of regions lie within them, and differ.
#![tactic(auto)]

pub mod laws;
