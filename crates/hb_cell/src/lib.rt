//! Cells: their limits, their order, and their bytes in a file.
#![tactic(auto)]

pub mod cell;
pub mod coding;
pub mod fault;
pub mod hiding;
pub mod kind;

pub use cell::{Cell, MAX_FAMILY, MAX_ROW, MAX_VALUE, NUMBER_LIMIT, cmp_key};
pub use coding::{decode_cell, encode_cell};
pub use fault::CellError;
pub use hiding::hidden_by;
pub use kind::Kind;

#[cfg(test)]
mod tests;
