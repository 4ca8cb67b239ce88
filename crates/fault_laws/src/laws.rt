//! How many faults some bytes have.
ghost use Rattle.snapshot_messages.specs.Faults.{IsReferenceFault, IsSnapshotInfoFault, IsRegionInfoFault};
ghost use Rattle.fault_laws.specs.One.{HasOne};

/// Two faults of the same bytes are the same, but for want of memory.
pub fn faults_are_one()
    ensures references { HasOne IsReferenceFault }
    ensures infos { HasOne IsSnapshotInfoFault }
    ensures regions { HasOne (λ bytes. IsRegionInfoFault bytes 0) }
{}
