//! Regions.
ghost use Rattle.std.specs.Prelude.{◌≡◌, ◌^◌, ◌+◌, ◌<◌, [], length, unwrap_or, IfOk, IfErr};
ghost use Rattle.field_rules.specs.Values.{Inner};
ghost use Rattle.field_reader.specs.Faults.{Within};
ghost use Rattle.snapshot_records.specs.RegionInfo.{IsRegionInfo, some_bytes, region_made};
ghost use Rattle.snapshot_messages.specs.Faults.{IsRegionInfoFault};

use crate::rules::{AnyNumber, Bound};
use crate::table::TableRule;
use field_reader::{Last, Met, RecordError, Rule, met_text, need, read_fields, told};
use field_rules::Unmade;
use hb_names::TableName;
use hb_records::RegionInfo;
use hb_wire::Blob;
use std::alloc::Global;

type RegionFields = (
    Last<1, AnyNumber>,
    (Last<2, TableRule>, (Last<3, Bound>, Last<4, Bound>)),
);

/// The row at which a region starts.
fn start_of(alloc: Global, row: Option<Blob>) -> Blob
    ensures { result ≡ unwrap_or row [] }
{
    match row {
        Some(row) => row,
        None => Blob::from_vec(Vec::new(alloc)),
    }
}

/// The row before which a region ends, where there is one.
fn end_of(row: Option<Blob>) -> Option<Blob>
    ensures { result ≡ some_bytes (unwrap_or row []) }
{
    match row {
        Some(row) if !row.is_empty() => Some(row),
        _ => None,
    }
}

/// The region by its fields.
fn region_made(
    alloc: Global,
    id: Option<u64>,
    table: Option<TableName>,
    start: Option<Blob>,
    end: Option<Blob>,
) -> Result<RegionInfo, Unmade>
    ensures { result ≡ region_made (id, (table, (start, end))) }
{
    let id = need(id, 1)?;
    let table = need(table, 2)?;
    let start = start_of(alloc, start);
    let end = end_of(end);
    Ok(RegionInfo {
        id,
        table,
        start,
        end,
    })
}

/// The region that a message is, which stands at a place.
fn read_message(alloc: Global, bytes: &[u8], place: u64) -> Result<RegionInfo, RecordError>
    requires { place + length bytes.now < 2 ^ 64 }
    ensures found { IfOk result (IsRegionInfo bytes.now) }
    ensures fault { IfErr result (IsRegionInfoFault bytes.now place) }
{
    let (id, (table, (start, end))): RegionFields = read_fields(alloc, bytes, place)?;
    let made = region_made(alloc, id.value, table.value, start.value, end.value);
    told(made, bytes, place)
}

/// A region in a message.
#[derive(Clone, Copy, Debug)]
pub struct RegionRule;

impl Rule for RegionRule {
    type Value = RegionInfo;

    ghost spells = { Inner IsRegionInfo };

    ghost faults = { Within IsRegionInfoFault };

    fn read(alloc: Global, bytes: &[u8], met: &Met) -> Result<RegionInfo, RecordError> {
        let message = met_text(bytes, met)?;
        read_message(alloc, message, met.inside)
    }
}

/// The region that the bytes are, or the place of their fault.
///
/// Source: HBase `RegionInfo`.
pub fn read_region_info(alloc: Global, bytes: &[u8]) -> Result<RegionInfo, RecordError>
    ensures found { IfOk result (IsRegionInfo bytes.now) }
    ensures fault { IfErr result (IsRegionInfoFault bytes.now 0) }
{
    read_message(alloc, bytes, 0)
}
