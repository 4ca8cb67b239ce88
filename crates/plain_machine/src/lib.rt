//! The plain machine, slow on purpose: every part of its state is a list that is walked.
//!
//! It is what the quick machines are compared with in tests. Its contracts are the definitions of `plain_model`.
#![tactic(auto)]

pub mod laws;
pub mod plain;
pub(crate) mod replies;
pub mod views;

pub use plain::Plain;
