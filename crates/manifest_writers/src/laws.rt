//! What holds of all that is written.

ghost use Rattle.hb_records.specs.declared.region_info.RegionInfo.{RegionInfo};
ghost use Rattle.snapshot_records.specs.declared.reference.Reference.{Reference};
ghost use Rattle.snapshot_records.specs.Reference.{IsSplitRow};
ghost use Rattle.snapshot_writers.specs.Written.{reference_bytes, info_bytes, region_bytes, IsWritableRegion};
ghost use Rattle.manifest_writers.specs.Written.{region_manifest_bytes, manifest_bytes};
ghost use Rattle.manifest_writers.specs.Writable.{RegionManifestsAreWritten, ManifestsAreWritten};
ghost use Rattle.manifest_writers.specs.ReadBack.{HasInfoRecord, HasRegionRecord, HasManifestRecord, AreToldApart};
ghost use Rattle.manifest_writers.specs.ReadBack.{ReferencesAreReadBack, InfosAreReadBack, RegionsAreReadBack, RegionManifestsAreReadBack, ManifestsAreReadBack};

/// What is written of a manifest that has a record is its record, and so of a region of one.
pub fn manifests_written()
    ensures regions { RegionManifestsAreWritten }
    ensures manifests { ManifestsAreWritten }
{}

/// Reading what was written gives the value, but for want of memory.
pub fn written_is_read()
    ensures references { ReferencesAreReadBack }
    ensures infos { InfosAreReadBack }
    ensures regions { RegionsAreReadBack }
    ensures region_manifests { RegionManifestsAreReadBack }
    ensures manifests { ManifestsAreReadBack }
{}

/// Two values are written differently.
pub fn records_told_apart()
    ensures references { AreToldApart (λ (reference : Reference). IsSplitRow reference.row) reference_bytes }
    ensures infos { AreToldApart HasInfoRecord info_bytes }
    ensures regions { AreToldApart IsWritableRegion region_bytes }
    ensures region_manifests { AreToldApart HasRegionRecord region_manifest_bytes }
    ensures manifests { AreToldApart HasManifestRecord manifest_bytes }
{}
