//! That the trees of journals stay complete.
#![tactic(auto)]

pub mod laws;
