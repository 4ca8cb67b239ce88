//! Cells of several inputs merged into key order, and the visible ones among them.
#![tactic(auto)]

pub mod compact;
mod group;
mod head;
pub mod input;
mod machine;
pub mod merge;
pub mod visible;

pub use compact::compact_cells;
pub use input::{Input, put_in_order};
pub use merge::Merge;
pub use visible::Visible;

#[cfg(test)]
mod tests;
