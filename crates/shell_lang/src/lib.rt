//! The language of the shell's scripts: what each line asks for.
//!
//! The grammar of a line and the place where a line leaves it are of `shell_line`, and what its arguments mean is
//! of `shell_value`. Here a line becomes a job of `plain_model`.
#![tactic(auto)]

mod create;
mod delete;
pub mod jobs;
pub mod line;
mod put;
mod short;
#[cfg(test)]
mod tests;

pub use jobs::read_job;
pub use line::{LineError, read_line};
