//! That the files of halves say their rows and their sides.
#![tactic(auto)]

pub mod laws;
