//! Lines of commit files: why a file is refused, and how words and numbers are read off a place of it.
#![tactic(auto)]

pub mod error;
pub mod line;

pub use error::{BadText, ListError};
pub use line::{MAX_NUMBER, check_number, read_number, word_end};

#[cfg(test)]
mod tests;
