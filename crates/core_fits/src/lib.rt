//! That each tree of a journal is valid.
#![tactic(auto)]

pub mod laws;
