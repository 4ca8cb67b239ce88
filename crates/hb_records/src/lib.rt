//! The records of tables and regions.
#![tactic(auto)]

pub mod region_info;
pub mod table_schema;

pub use region_info::RegionInfo;
pub use table_schema::TableSchema;

#[cfg(test)]
mod tests;
