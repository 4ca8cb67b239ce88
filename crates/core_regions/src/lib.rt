//! That the regions of a table cover all rows and differ.
#![tactic(auto)]

pub mod laws;
