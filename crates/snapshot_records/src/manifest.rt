//! What a snapshot holds.

use crate::Reference;
use hb_names::FamilyName;
use hb_records::{RegionInfo, TableSchema};
use hb_wire::{Blob, Copied, Items, NoMemory};

/// How many versions of a cell a family shows at most.
pub const MAX_VERSIONS: u32 = 2_147_483_647;

/// A region in a snapshot: the region, the greatest sequence number of its cells, and its files, each with its family,
/// its name, the half that it is, if it is one, and its size in bytes. Source: HBase `SnapshotRegionManifest`.
#[derive(Debug, Drop, PartialEq, Eq)]
pub struct RegionManifest {
    pub info: RegionInfo,
    pub seq: u64,
    pub files: Items<(FamilyName, Blob, Option<Reference>, u64)>,
}

impl Copied for RegionManifest {
    fn copy(&self) -> Result<RegionManifest, NoMemory> {
        Ok(RegionManifest {
            info: self.info.copy()?,
            seq: self.seq,
            files: self.files.copy()?,
        })
    }
}

/// What a snapshot holds: its table's schema, and its regions. Source: HBase `SnapshotDataManifest`.
#[derive(Debug, Drop, PartialEq, Eq)]
pub struct Manifest {
    pub schema: TableSchema,
    pub regions: Items<RegionManifest>,
}

impl Copied for Manifest {
    fn copy(&self) -> Result<Manifest, NoMemory> {
        Ok(Manifest {
            schema: self.schema.copy()?,
            regions: self.regions.copy()?,
        })
    }
}
