//! The program from words and bytes to bytes: it reads a script, answers it from a store, and writes the answer.
#![tactic(auto)]

mod answer;
pub mod outcome;
mod output;
pub mod program;
pub mod run;
pub mod run_error;
mod script;
mod snapshots;

pub use outcome::Outcome;
pub use program::{hbase_main, hbase_program};
pub use run::{hbase, hbase_script};
pub use shell_words::Options;

#[cfg(test)]
mod tests;
