//! The region set of a table, read and written exactly.
#![tactic(auto)]

mod family_line;
mod region_line;
mod region_parts;
pub mod region_set;
#[cfg(test)]
mod region_tests;
mod regions;
pub mod set_state;
#[cfg(test)]
mod tests;
mod valid_region;

pub use region_set::RegionSet;
pub use set_state::SetState;
