//! Manifests.
ghost use Rattle.std.specs.Prelude.{◌≡◌, IfOk, IfErr};
ghost use Rattle.snapshot_records.specs.Manifest.{manifest_made, IsManifest};
ghost use Rattle.manifest_messages.specs.Faults.{IsManifestFault};

use crate::region::RegionManifestRule;
use crate::schema::SchemaRule;
use field_reader::{Last, RecordError, Repeated, need, read_fields, told};
use field_rules::Unmade;
use hb_records::TableSchema;
use hb_wire::Items;
use snapshot_records::{Manifest, RegionManifest};
use std::alloc::Global;

type ManifestFields = (Last<1, SchemaRule>, Repeated<2, RegionManifestRule>);

/// A manifest by its fields.
fn manifest_made(
    schema: Option<TableSchema>,
    regions: Items<RegionManifest>,
) -> Result<Manifest, Unmade>
    ensures { result ≡ manifest_made (schema, regions) }
{
    let schema = need(schema, 1)?;
    Ok(Manifest { schema, regions })
}

/// The manifest that the bytes are, or the place of their fault.
///
/// Source: HBase `SnapshotDataManifest`.
pub fn read_manifest(alloc: Global, bytes: &[u8]) -> Result<Manifest, RecordError>
    ensures found { IfOk result (IsManifest bytes.now) }
    ensures fault { IfErr result (IsManifestFault bytes.now) }
{
    let (schema, regions): ManifestFields = read_fields(alloc, bytes, 0)?;
    let made = manifest_made(schema.value, regions.values);
    told(made, bytes, 0)
}
