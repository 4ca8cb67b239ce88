//! The messages of references, descriptions of snapshots and regions, written.
#![tactic(auto)]

pub mod info;
pub mod laws;
pub mod reference;
pub mod region;

pub use info::write_snapshot_info;
pub use laws::writings_told;
pub use reference::{is_split_row, reference_message, write_reference};
pub use region::{
    is_region_row, is_writable_region, region_message, table_message, write_region_info,
};

#[cfg(test)]
mod tests;
