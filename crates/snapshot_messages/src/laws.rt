//! What faults exclude.

ghost use Rattle.field_reader.specs.Faults.{Excludes};
ghost use Rattle.snapshot_records.specs.Reference.{IsReference};
ghost use Rattle.snapshot_records.specs.SnapshotInfo.{IsSnapshotInfo};
ghost use Rattle.snapshot_records.specs.RegionInfo.{IsRegionInfo};
ghost use Rattle.snapshot_messages.specs.Faults.{IsReferenceFault, IsSnapshotInfoFault, IsRegionInfoFault};

/// Bytes with a fault are no record: each record is read, but for want of memory.
pub fn faults_told()
    ensures references { Excludes IsReference IsReferenceFault }
    ensures infos { Excludes IsSnapshotInfo IsSnapshotInfoFault }
    ensures regions { Excludes IsRegionInfo (λ bytes. IsRegionInfoFault bytes 0) }
{}
