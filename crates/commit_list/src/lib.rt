//! Commit files, read and written exactly: the store list of a region, and, from `region_set`, the region set of a
//! table; and the newest of those in a directory.
#![tactic(auto)]

pub mod commit_number;
pub mod list_entry;
pub mod region_list;
#[cfg(test)]
mod tests;

pub use commit_line::ListError;
pub use commit_number::newest;
pub use list_entry::{EntryKind, ListEntry};
pub use region_list::RegionList;
pub use region_set::{RegionSet, SetState};
