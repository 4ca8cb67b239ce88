//! Descriptions of snapshots.
ghost use Rattle.std.specs.Prelude.{◌≡◌, ◌++◌, IfOk, OnOk, OnErr};
ghost use Rattle.snapshot_records.specs.SnapshotInfo.{flush_code, IsSnapshotInfo};
ghost use Rattle.snapshot_writers.specs.Written.{info_bytes};

use hb_wire::{Blob, NoMemory};
use snapshot_records::SnapshotInfo;
use std::alloc::Global;
use wire_fields::{put_bytes_field, put_varint_field};

/// The code of how a snapshot was made.
fn flush_code(flush: bool) -> u64
    ensures { result ≡ flush_code flush }
{
    if flush { 1 } else { 0 }
}

/// The record of a description.
fn info_bytes(alloc: Global, info: &SnapshotInfo) -> Result<Blob, NoMemory>
    ensures bytes { IfOk result (λ written. written ≡ info_bytes info.now) }
    ensures record { IfOk result (λ _. IsSnapshotInfo (info_bytes info.now) info.now) }
{
    let mut record = Blob::from_vec(Vec::new(alloc));
    put_bytes_field(&mut record, 1, info.name.as_slice())?;
    put_bytes_field(&mut record, 2, info.table.as_slice())?;
    put_varint_field(&mut record, 3, info.created)?;
    put_varint_field(&mut record, 4, flush_code(info.flush))?;
    put_varint_field(&mut record, 5, 2)?;
    Ok(record)
}

/// Adds the description of a snapshot at the end. Without memory for it nothing changes.
///
/// Source: HBase `SnapshotDescription`.
pub fn write_snapshot_info(info: &SnapshotInfo, out: &mut Blob) -> Result<(), NoMemory>
    ensures ok { OnOk result (out.new ≡ out.old ++ info_bytes info.now) }
    ensures record { OnOk result (IsSnapshotInfo (info_bytes info.now) info.now) }
    ensures err { OnErr result (out.new ≡ out.old) }
{
    let record = info_bytes(out.allocator(), info)?;
    out.add(record.as_slice())
}
