//! Descriptions of snapshots.
ghost use Rattle.std.specs.Prelude.{◌≡◌, IfOk, IfErr};
ghost use Rattle.snapshot_records.specs.SnapshotInfo.{IsSnapshotInfo, info_made};
ghost use Rattle.snapshot_messages.specs.Faults.{IsSnapshotInfoFault};

use crate::rules::{AnyNumber, Flush, SnapText, TableText};
use field_reader::{Last, RecordError, need, read_fields, told};
use field_rules::Unmade;
use hb_names::{SnapName, TableName};
use snapshot_records::SnapshotInfo;
use std::alloc::Global;

type InfoFields = (
    Last<1, SnapText>,
    (
        Last<2, TableText>,
        (Last<3, AnyNumber>, (Last<4, Flush>, Last<5, AnyNumber>)),
    ),
);

/// The description of a snapshot by its fields.
fn info_made(
    name: Option<SnapName>,
    table: Option<TableName>,
    created: Option<u64>,
    flush: Option<bool>,
    version: Option<u64>,
) -> Result<SnapshotInfo, Unmade>
    ensures { result ≡ info_made (name, (table, (created, (flush, version)))) }
{
    let name = need(name, 1)?;
    let table = need(table, 2)?;
    Ok(SnapshotInfo {
        name,
        table,
        created: created.unwrap_or(0),
        flush: flush.unwrap_or(true),
    })
}

/// The description of a snapshot that the bytes are, or the place of their fault.
///
/// Source: HBase `SnapshotDescription`.
pub fn read_snapshot_info(alloc: Global, bytes: &[u8]) -> Result<SnapshotInfo, RecordError>
    ensures found { IfOk result (IsSnapshotInfo bytes.now) }
    ensures fault { IfErr result (IsSnapshotInfoFault bytes.now) }
{
    let fields: InfoFields = read_fields(alloc, bytes, 0)?;
    let (name, (table, (created, (flush, version)))) = fields;
    let made = info_made(
        name.value,
        table.value,
        created.value,
        flush.value,
        version.value,
    );
    told(made, bytes, 0)
}
