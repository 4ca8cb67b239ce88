//! Regions in a snapshot.
ghost use Rattle.std.specs.Prelude.{◌≡◌, ◌++◌, ◌↔◌, IsTrue, IfOk, OnOk, OnErr};
ghost use Rattle.snapshot_records.specs.Manifest.{IsRegionManifest};
ghost use Rattle.manifest_writers.specs.Written.{region_manifest_bytes};
ghost use Rattle.manifest_writers.specs.Writable.{IsWritableRegionManifest};

use crate::file::{are_writable_files, put_families};
use hb_wire::{Blob, NoMemory};
use snapshot_records::RegionManifest;
use snapshot_writers::{is_writable_region, region_message};
use std::alloc::Global;
use wire_fields::{put_bytes_field, put_varint_field};

/// Whether a region of a snapshot has a record: its bounds are rows, its sequence number is at most 2^63 - 1, each of
/// its files is named as what it is, and those of a family stand together, families in the order of their names.
pub fn is_writable_region_manifest(region: &RegionManifest) -> bool
    ensures { IsTrue result ↔ IsWritableRegionManifest region.now }
{
    region.seq <= 9_223_372_036_854_775_807
        && is_writable_region(&region.info)
        && are_writable_files(region.files.as_slice())
}

/// The message of a region.
pub(crate) fn region_manifest_message(
    alloc: Global,
    region: &RegionManifest,
) -> Result<Blob, NoMemory>
    ensures { IfOk result (λ message. message ≡ region_manifest_bytes region.now) }
{
    let info = region_message(alloc, &region.info)?;
    let mut message = Blob::from_vec(Vec::new(alloc));
    put_varint_field(&mut message, 1, 1)?;
    put_bytes_field(&mut message, 2, info.as_slice())?;
    put_families(&mut message, region.files.as_slice())?;
    put_varint_field(&mut message, 100, region.seq)?;
    Ok(message)
}

/// Adds the record of a region of a snapshot at the end. Without memory for it nothing changes.
///
/// Source: HBase `SnapshotRegionManifest`.
pub fn write_region_manifest(region: &RegionManifest, out: &mut Blob) -> Result<(), NoMemory>
    requires { IsWritableRegionManifest region.now }
    ensures ok { OnOk result (out.new ≡ out.old ++ region_manifest_bytes region.now) }
    ensures record { OnOk result (IsRegionManifest (region_manifest_bytes region.now) region.now) }
    ensures err { OnErr result (out.new ≡ out.old) }
{
    let record = region_manifest_message(out.allocator(), region)?;
    out.add(record.as_slice())
}
