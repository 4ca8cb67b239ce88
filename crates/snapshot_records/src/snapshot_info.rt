//! Descriptions of snapshots.

use hb_names::{SnapName, TableName};
use hb_wire::{Copied, NoMemory};

/// A snapshot: its name, its table, when it was made, in milliseconds, and whether the table was flushed for it, as an
/// enabled one is. Source: HBase `SnapshotDescription`.
#[derive(Debug, Drop, PartialEq, Eq)]
pub struct SnapshotInfo {
    pub name: SnapName,
    pub table: TableName,
    pub created: u64,
    pub flush: bool,
}

impl Copied for SnapshotInfo {
    fn copy(&self) -> Result<SnapshotInfo, NoMemory> {
        Ok(SnapshotInfo {
            name: self.name.copy()?,
            table: self.table.copy()?,
            created: self.created,
            flush: self.flush,
        })
    }
}
