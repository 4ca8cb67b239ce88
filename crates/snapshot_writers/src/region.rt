//! Regions.
ghost use Rattle.std.specs.Prelude.{◌≡◌, ◌++◌, ◌↔◌, List, length, IsTrue, IfOk, OnOk, OnErr};
ghost use Rattle.wire_fields.specs.Message.{message_bytes};
ghost use Rattle.snapshot_records.specs.RegionInfo.{IsRegionInfo};
ghost use Rattle.snapshot_writers.specs.Written.{table_bytes, start_part, end_part, region_bytes, IsRegionRow, IsWritableRegion};

use crate::is_split_row;
use hb_names::TableName;
use hb_records::RegionInfo;
use hb_wire::{Blob, NoMemory};
use std::alloc::Global;
use wire_fields::{put_bytes_field, put_varint_field};

/// Whether a row can be the bound of a region that is written.
pub fn is_region_row(row: &[u8]) -> bool
    ensures { IsTrue result ↔ IsRegionRow row.now }
{
    row.len() <= 32767
}

/// Whether a region has a record: whether its bounds are rows, and its end, where it has one, is of at least a byte.
pub fn is_writable_region(info: &RegionInfo) -> bool
    ensures { IsTrue result ↔ IsWritableRegion info.now }
{
    // The id and the table's name are right by their types.
    let _id = info.id;
    let _table = info.table.as_slice();
    let ends = match &info.end {
        Some(row) => is_split_row(row.as_slice()),
        None => true,
    };
    ends && is_region_row(info.start.as_slice())
}

/// The message of a table's name.
pub fn table_message(alloc: Global, table: &TableName) -> Result<Blob, NoMemory>
    ensures { IfOk result (λ message. message ≡ table_bytes table.now) }
{
    let mut message = Blob::from_vec(Vec::new(alloc));
    put_bytes_field(&mut message, 1, b"default")?;
    put_bytes_field(&mut message, 2, table.as_slice())?;
    Ok(message)
}

/// Adds the row at which a region starts, where there is one.
fn put_start(out: &mut Blob, row: &[u8]) -> Result<(), NoMemory>
    ensures { OnOk result (out.new ≡ out.old ++ message_bytes (start_part row.now)) }
{
    if row.is_empty() {
        return Ok(());
    }
    put_bytes_field(out, 3, row)
}

/// Adds the row before which a region ends, where there is one.
fn put_end(out: &mut Blob, row: &Option<Blob>) -> Result<(), NoMemory>
    ensures { OnOk result (out.new ≡ out.old ++ message_bytes (end_part row.now)) }
{
    match row {
        None => Ok(()),
        Some(row) => put_bytes_field(out, 4, row.as_slice()),
    }
}

/// The message of a region.
pub fn region_message(alloc: Global, info: &RegionInfo) -> Result<Blob, NoMemory>
    ensures { IfOk result (λ written. written ≡ region_bytes info.now) }
{
    let table = table_message(alloc, &info.table)?;
    let mut message = Blob::from_vec(Vec::new(alloc));
    put_varint_field(&mut message, 1, info.id)?;
    put_bytes_field(&mut message, 2, table.as_slice())?;
    put_start(&mut message, info.start.as_slice())?;
    put_end(&mut message, &info.end)?;
    Ok(message)
}

/// Adds the record of a region at the end. Without memory for it nothing changes.
///
/// Source: HBase `RegionInfo`.
pub fn write_region_info(info: &RegionInfo, out: &mut Blob) -> Result<(), NoMemory>
    requires { IsWritableRegion info.now }
    ensures ok { OnOk result (out.new ≡ out.old ++ region_bytes info.now) }
    ensures record { IsRegionInfo (region_bytes info.now) info.now }
    ensures err { OnErr result (out.new ≡ out.old) }
{
    let record = region_message(out.allocator(), info)?;
    out.add(record.as_slice())
}
