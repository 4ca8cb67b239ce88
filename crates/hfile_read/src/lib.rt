//! HFiles of version 2, read whole: their cells, or the first fault with its place.
#![tactic(auto)]

pub mod block;
pub mod data;
pub mod file;
pub mod front;
pub mod info;
pub mod key;
pub mod left;
pub mod opened;
pub mod tail;
pub mod tree;

pub use file::check;

#[cfg(test)]
mod tests;
