//! Messages as lists of field rules, read by one walk.
#![tactic(auto)]

pub mod unmade;

pub use unmade::Unmade;
