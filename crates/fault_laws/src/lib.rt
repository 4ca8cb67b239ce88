//! Bytes that are no record have one fault: what a reader tells of them is the only answer that its contract allows.
#![tactic(auto)]

pub mod laws;

pub use laws::faults_are_one;
