//! Snapshots, by their regions. The records of the snapshot's files come with the requests that read them.

use crate::Entry;
use hb_records::{RegionInfo, TableSchema};
use hb_wire::Items;

/// A region as a snapshot has it.
#[derive(Debug, Drop)]
pub struct CopiedRegion {
    pub info: RegionInfo,
    pub seq: u64,
    pub entries: Items<Entry>,
}

/// A snapshot as its manifest has it.
#[derive(Debug, Drop)]
pub struct Snapshot {
    pub schema: TableSchema,
    pub regions: Items<CopiedRegion>,
}
