//! What the bytes of the core's files are, given what each step writes.
#![tactic(auto)]

pub mod laws;
