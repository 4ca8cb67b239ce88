//! Row keys in text files: as lower-case hexadecimal digits, two for each byte, and as `-` where
//! the key is empty. The texts have a grammar, and their order is that of the row keys.
#![tactic(auto)]

pub mod grammar;
pub mod next;
pub mod row_text;
#[cfg(test)]
mod tests;

pub use grammar::{RowGrammar, row_grammar};
pub use next::{has_next_row, next_row};
pub use row_text::{MAX_ROW, read_row, write_row};
