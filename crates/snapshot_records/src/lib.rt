//! The records of snapshots and of halves of split files, and the messages that they are kept as.
#![tactic(auto)]

pub mod laws;
pub mod manifest;
pub mod reference;
pub mod snapshot_info;

pub use laws::records_told;
pub use manifest::{MAX_VERSIONS, Manifest, RegionManifest};
pub use reference::Reference;
pub use snapshot_info::SnapshotInfo;
