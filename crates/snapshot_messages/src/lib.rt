//! The messages of references, descriptions of snapshots and regions, read exactly.
#![tactic(auto)]

pub mod info;
pub mod laws;
pub mod reference;
pub mod region;
pub mod rules;
pub mod table;

pub use info::read_snapshot_info;
pub use laws::faults_told;
pub use reference::{ReferenceRule, read_reference};
pub use region::{RegionRule, read_region_info};
pub use rules::{AnyNumber, AnyText, FamilyText, SeqNumber, TableText};
pub use table::{TableRule, read_table};

#[cfg(test)]
mod tests;
#[cfg(test)]
mod turn_tests;
