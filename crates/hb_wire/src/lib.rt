//! Byte strings and lists as values, how a value that is kept twice is copied, and numbers of
//! fixed and of variable length.
//!
//! A contract sees a [`blob::Blob`] as its bytes and an [`items::Items`] as its list, so that the
//! values of every crate above can be compared with what a definition says.
#![tactic(auto)]

pub mod blob;
pub mod copied;
pub mod fault;
pub mod fixed;
pub mod items;
pub mod vlong;

pub use blob::Blob;
pub use copied::Copied;
pub use fault::WireError;
pub use fixed::{put_u16, put_u32, put_u64};
pub use items::Items;
pub use vlong::{get_vlong, put_vlong};

/// Want of memory: no memory was left for a growth. It is the one answer that no contract ties to a cause.
pub type NoMemory = std::alloc::AllocError;

#[cfg(test)]
mod tests;
