//! What stands in a plain state: tables, copies of regions, snapshots, activities.

use crate::{Actor, Hold, Job};
use hb_cell::Cell;
use hb_records::{RegionInfo, TableSchema};
use hb_wire::{Copied, Items, NoMemory};

/// A table that exists. Beside each of its regions stands whether it is split.
#[derive(Debug, Drop)]
pub struct PlainTable {
    pub enabled: bool,
    pub schema: TableSchema,
    pub regions: Items<(RegionInfo, bool)>,
}

/// A region copied by value: its cells, and the number that a stop would have left it.
#[derive(Debug, Drop)]
pub struct RegionCopy {
    pub region: RegionInfo,
    pub cells: Items<Cell>,
    pub number: u64,
}

/// A completed snapshot.
#[derive(Debug, Drop)]
pub struct PlainSnapshot {
    pub schema: TableSchema,
    pub regions: Items<RegionCopy>,
}

/// An activity at work.
#[derive(Debug, Drop)]
pub struct Live {
    pub actor: Actor,
    pub job: Job,
    pub holds: Items<Hold>,
}

impl Copied for PlainTable {
    fn copy(&self) -> Result<PlainTable, NoMemory> {
        Ok(PlainTable {
            enabled: self.enabled,
            schema: self.schema.copy()?,
            regions: self.regions.copy()?,
        })
    }
}

impl Copied for RegionCopy {
    fn copy(&self) -> Result<RegionCopy, NoMemory> {
        Ok(RegionCopy {
            region: self.region.copy()?,
            cells: self.cells.copy()?,
            number: self.number,
        })
    }
}

impl Copied for PlainSnapshot {
    fn copy(&self) -> Result<PlainSnapshot, NoMemory> {
        Ok(PlainSnapshot {
            schema: self.schema.copy()?,
            regions: self.regions.copy()?,
        })
    }
}

impl Copied for Live {
    fn copy(&self) -> Result<Live, NoMemory> {
        Ok(Live {
            actor: self.actor,
            job: self.job.copy()?,
            holds: self.holds.copy()?,
        })
    }
}
