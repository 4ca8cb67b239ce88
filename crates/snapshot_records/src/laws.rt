//! What tells records.

ghost use Rattle.field_rules.specs.Values.{OneValue};
ghost use Rattle.snapshot_records.specs.Reference.{IsReference};
ghost use Rattle.snapshot_records.specs.SnapshotInfo.{IsSnapshotInfo};
ghost use Rattle.snapshot_records.specs.RegionInfo.{IsRegionInfo};
ghost use Rattle.snapshot_records.specs.Manifest.{IsManifest};

/// Bytes are the record of one value at most.
pub fn records_told()
    ensures references { OneValue IsReference }
    ensures infos { OneValue IsSnapshotInfo }
    ensures regions { OneValue IsRegionInfo }
    ensures manifests { OneValue IsManifest }
{}
