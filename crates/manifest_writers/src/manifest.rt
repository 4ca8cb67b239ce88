//! Manifests.
ghost use Rattle.std.specs.Prelude.{◌≡◌, ◌++◌, ◌↔◌, IsTrue, IfOk, OnOk, OnErr};
ghost use Rattle.std.specs.List.{AllByRecursion, flat_map};
ghost use Rattle.wire_fields.specs.Fields.{text, field_bytes};
ghost use Rattle.snapshot_records.specs.Manifest.{IsManifest};
ghost use Rattle.manifest_writers.specs.Written.{region_manifest_bytes, manifest_bytes};
ghost use Rattle.manifest_writers.specs.Writable.{IsWritableRegionManifest, IsWritableManifest};

use crate::region::{is_writable_region_manifest, region_manifest_message};
use crate::schema::{is_writable_schema, schema_message};
use hb_wire::{Blob, NoMemory};
use snapshot_records::{Manifest, RegionManifest};
use std::alloc::Global;
use wire_fields::put_bytes_field;

/// Whether a manifest can have these regions.
fn are_writable_regions(regions: &[RegionManifest]) -> bool
    ensures { IsTrue result ↔ AllByRecursion IsWritableRegionManifest regions.now }
{
    for region in regions {
        if !is_writable_region_manifest(region) {
            return false;
        }
    }
    true
}

/// Whether a manifest has a record: its schema has one, and each of its regions.
pub fn is_writable_manifest(manifest: &Manifest) -> bool
    ensures { IsTrue result ↔ IsWritableManifest manifest.now }
{
    is_writable_schema(&manifest.schema) && are_writable_regions(manifest.regions.as_slice())
}

/// Adds a field for each region.
fn put_regions(out: &mut Blob, regions: &[RegionManifest]) -> Result<(), NoMemory>
    ensures { OnOk result (out.new ≡ out.old ++ flat_map (λ r. field_bytes 2 (text (region_manifest_bytes r))) regions.now) }
{
    for region in regions {
        let message = region_manifest_message(out.allocator(), region)?;
        put_bytes_field(out, 2, message.as_slice())?;
    }
    Ok(())
}

/// The message of a manifest.
fn manifest_message(alloc: Global, manifest: &Manifest) -> Result<Blob, NoMemory>
    ensures { IfOk result (λ message. message ≡ manifest_bytes manifest.now) }
{
    let schema = schema_message(alloc, &manifest.schema)?;
    let mut message = Blob::from_vec(Vec::new(alloc));
    put_bytes_field(&mut message, 1, schema.as_slice())?;
    put_regions(&mut message, manifest.regions.as_slice())?;
    Ok(message)
}

/// Adds the record of a manifest at the end. Without memory for it nothing changes.
///
/// Source: HBase `SnapshotDataManifest`.
pub fn write_manifest(manifest: &Manifest, out: &mut Blob) -> Result<(), NoMemory>
    requires { IsWritableManifest manifest.now }
    ensures ok { OnOk result (out.new ≡ out.old ++ manifest_bytes manifest.now) }
    ensures record { OnOk result (IsManifest (manifest_bytes manifest.now) manifest.now) }
    ensures err { OnErr result (out.new ≡ out.old) }
{
    let record = manifest_message(out.allocator(), manifest)?;
    out.add(record.as_slice())
}
