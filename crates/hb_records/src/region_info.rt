//! Regions, by the rows that they hold.

use hb_names::TableName;
use hb_wire::{Blob, Copied, NoMemory};

/// A region: its id, its table, the row at which it starts (no bytes where it has no lower bound), and the
/// row before which it ends (`None` where it has no upper bound). Source: HBase `RegionInfo`.
#[derive(Debug, Drop, PartialEq, Eq)]
pub struct RegionInfo {
    pub id: u64,
    pub table: TableName,
    pub start: Blob,
    pub end: Option<Blob>,
}

impl Copied for RegionInfo {
    fn copy(&self) -> Result<RegionInfo, NoMemory> {
        Ok(RegionInfo {
            id: self.id,
            table: self.table.copy()?,
            start: self.start.copy()?,
            end: self.end.copy()?,
        })
    }
}
