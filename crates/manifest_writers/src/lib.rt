//! The messages of manifests, written.
#![tactic(auto)]

pub mod file;
pub mod laws;
pub mod manifest;
pub mod region;
pub mod schema;

pub use file::is_writable_file;
pub use laws::{manifests_written, records_told_apart, written_is_read};
pub use manifest::{is_writable_manifest, write_manifest};
pub use region::{is_writable_region_manifest, write_region_manifest};
pub use schema::is_writable_schema;

#[cfg(test)]
mod refusal_tests;
#[cfg(test)]
mod tests;
