//! The index of an HFile: its keys and its nodes, read and written exactly.
#![tactic(auto)]

pub mod builder;
mod content;
pub mod entry;
pub mod fault;
pub mod key;
mod level;
pub mod node;
pub mod root;
pub mod written;

pub use builder::{IndexBuilder, MAX_KEY};
pub use entry::IndexEntry;
pub use fault::BadIndex;
pub use key::IndexKey;
pub use node::node_entries;
pub use root::{RootNode, root_entries, root_node};
pub use written::WrittenIndex;

#[cfg(test)]
mod tests;
