//! Blocks of an HFile: their headers, the cells of a data block, and every fault that a file can have.
#![tactic(auto)]

pub mod cell_block;
pub mod fault;
pub mod header;
pub mod magic;

pub use cell_block::cells_of_block;
pub use fault::HFileError;
pub use header::{HEADER_LEN, Header, read_header, write_block};
pub use magic::Magic;

#[cfg(test)]
mod tests;
