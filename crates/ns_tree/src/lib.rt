//! Stores of files: the tree that a store holds, the calls of every store, and a store in memory.
//!
//! A place is seen as its text, and a [`tree::Tree`] as a map from texts to files. A store that implements
//! [`namespace::Namespace`] may tell its tree. What its calls answer and leave is then stated by that map.
#![tactic(auto)]

pub mod file;
pub mod file_bytes;
mod files;
pub mod laws;
pub mod mem;
mod moves;
pub mod namespace;
mod places;
pub mod tree;

pub use file::{FileState, Stat};
pub use file_bytes::FileBytes;
pub use mem::MemNs;
pub use namespace::{Namespace, NsError};
pub use tree::Tree;
