//! The words of a command line, read by `clap`.
#![tactic(auto)]

mod command;
mod options;
mod words;

pub use options::Options;
pub use words::{WordsError, read_words};

#[cfg(test)]
mod tests;
