//! The regions that a set of a table can have.

ghost use Rattle.std.specs.Prelude.{◌≡◌, ◌≢◌, IfSome, option_copied, ◌↔◌, IsTrue};
ghost use Rattle.std.specs.declared.cmp.Ordering.TheVariants.{Greater};
ghost use Rattle.region_set.specs.RegionLine.{IsRow, IsRegion, IsRegionBehind, region_cmp};
ghost use Rattle.region_set.specs.RegionParts.{IsEnd};

use hb_names::TableName;
use hb_records::RegionInfo;
use hb_row_text::MAX_ROW;
use hb_wire::Blob;

/// Whether the bytes are a row key.
fn is_row(row: &[u8]) -> bool
    ensures { IsTrue result ↔ IsRow row.now }
{
    row.len() <= MAX_ROW
}

/// Whether the end of a region is one that it can have.
fn is_end(end: &Option<Blob>) -> bool
    ensures { IsTrue result ↔ IsEnd end.now }
{
    match end {
        None => true,
        Some(row) => is_row(row.as_slice()) && row.len() > 0,
    }
}

/// Whether a region is one of a table.
fn is_region(table: &TableName, region: &(RegionInfo, bool)) -> bool
    ensures { IsTrue result ↔ IsRegion table.now region.now }
{
    // Read, so that it is known to be of 64 bits.
    let _id = region.0.id;
    region.0.table == *table && is_row(region.0.start.as_slice()) && is_end(&region.0.end)
}

/// Whether a region is not below another, by start and then by id.
fn is_behind(last: &RegionInfo, info: &RegionInfo) -> bool
    ensures { IsTrue result ↔ (region_cmp last.now info.now ≢ Greater) }
{
    last.start
        .cmp(&info.start)
        .then(last.id.cmp(&info.id))
        .is_le()
}

/// Whether a region is one of a table, and may stand behind another one, if there is one.
pub(crate) fn is_region_behind(
    table: &TableName,
    last: Option<&(RegionInfo, bool)>,
    region: &(RegionInfo, bool),
) -> bool
    ensures { IsTrue result ↔ IsRegionBehind table.now (option_copied last.entry) region.now }
{
    if !is_region(table, region) {
        return false;
    }
    match last {
        None => true,
        Some(last) => is_behind(&last.0, &region.0),
    }
}
