//! What the arguments of a line mean: the texts in its quotes, their escapes undone, the number outside of them,
//! and the names, rows and values that they become.
//!
//! Each is a function in `specs/`, and each call gives exactly that function's value, or there is no memory for it.
#![tactic(auto)]

pub mod argument_value;
pub mod cut;
pub mod number;
pub mod quotes;
