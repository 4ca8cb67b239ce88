//! The messages of manifests, read exactly: schemas of tables, files of regions, regions of snapshots.
#![tactic(auto)]

pub mod attribute;
pub mod families;
pub mod file;
pub mod laws;
pub mod manifest;
pub mod region;
pub mod schema;

pub use laws::faults_told;
pub use manifest::read_manifest;
pub use region::{RegionManifestRule, read_region_manifest};

#[cfg(test)]
mod tests;
#[cfg(test)]
mod turn_tests;
