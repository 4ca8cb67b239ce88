//! That committed sets, and tables that are made, are within their limits.
#![tactic(auto)]

pub mod laws;
