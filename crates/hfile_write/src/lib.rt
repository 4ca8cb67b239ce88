//! The writer of HFiles: cells that ascend, written in the one form.
#![tactic(auto)]

mod chain;
mod data;
mod ended;
pub mod fault;
mod info;
mod summary;
pub mod writer;

pub use fault::AddError;
pub use writer::HFileWriter;

#[cfg(test)]
mod tests;
