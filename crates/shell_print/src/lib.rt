//! What the shell prints: a reply or a cause as lines of text, added at the end of a byte string.
//!
//! The texts are definitions in `specs/`, and each call adds exactly the text of its definition, or,
//! where there is no memory for it, nothing.
#![tactic(auto)]

pub mod cause;
pub mod piece;
pub mod print;
#[cfg(test)]
mod tests;

pub use cause::{PrintCause, print_cause};
pub use print::print_reply;
