//! The regions of a file, one line each.

ghost use Rattle.std.specs.Prelude.{◌≡◌, ◌≤◌, length, None, ◌↔◌, IsTrue};
ghost use Rattle.hb_grammar.specs.Rows.{RowsFrom};
ghost use Rattle.commit_line.specs.Rows.{AreRowsRead};
ghost use Rattle.region_set.specs.RegionLine.{IsRegionBehind, region_text, begins_region};

use crate::region_line::read_region;
use crate::valid_region::is_region_behind;
use commit_line::ListError;
use hb_names::TableName;
use hb_records::RegionInfo;
use hb_wire::Items;
use std::alloc::Global;

/// The regions of a table from a place on, and the place behind them, where no other begins.
pub(crate) fn read_regions(
    alloc: Global,
    table: &TableName,
    bytes: &[u8],
    at: usize,
) -> Result<(Items<(RegionInfo, bool)>, usize), ListError>
    requires { at ≤ length bytes.now }
    ensures { AreRowsRead (IsRegionBehind table.now) region_text begins_region bytes.now at result }
{
    let mut regions = Vec::new(alloc);
    let mut place = at;
    while place < bytes.len() && bytes[place] == b'r' {
        let last = regions.as_slice().last();
        let (region, end) = read_region(alloc, table, last, bytes, place)?;
        regions.push(region)?;
        place = end;
    }
    Ok((Items::from_vec(regions), place))
}

/// Whether each of the regions is one of the table, and none is below the one before it.
pub(crate) fn are_regions(table: &TableName, regions: &[(RegionInfo, bool)]) -> bool
    ensures { IsTrue result ↔ RowsFrom (IsRegionBehind table.now) None regions.now }
{
    for i in 0..regions.len() {
        if !is_region_behind(table, regions[..i].last(), &regions[i]) {
            return false;
        }
    }
    true
}
