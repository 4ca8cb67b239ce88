//! Compactions: which files they take.
#![tactic(auto)]

pub mod selection;

pub use selection::{SelectParams, select};

#[cfg(test)]
mod tests;
