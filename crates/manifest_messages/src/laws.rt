//! What faults exclude.
ghost use Rattle.field_reader.specs.Faults.{Excludes};
ghost use Rattle.snapshot_records.specs.Manifest.{IsManifest, IsRegionManifest};
ghost use Rattle.manifest_messages.specs.Faults.{IsManifestFault, IsRegionManifestFault};

/// Bytes with a fault are no record: each record is read, but for want of memory.
pub fn faults_told()
    ensures manifests { Excludes IsManifest IsManifestFault }
    ensures regions { Excludes IsRegionManifest (λ bytes. IsRegionManifestFault bytes 0) }
{}
