//! The lines of the shell's scripts: the grammar of each kind of line, and the place where a line leaves it.
//!
//! A line is the word of its kind and arguments. The tables are definitions in `specs/`. [`check_line`]
//! answers for every byte string: a line of one of the kinds that it is given, or the length of the
//! longest prefix with which such a line begins.
#![tactic(auto)]

mod form;
pub mod line;
mod line_form;
pub mod line_kind;
mod piece;
mod put_line;
#[cfg(test)]
mod tests;

pub use line::check_line;
pub use line_kind::{LINE_KINDS, LineKind};
