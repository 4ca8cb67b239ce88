//! New regions, and their keys.

ghost use Rattle.std.specs.Prelude.{◌≡◌, [], Some, None, map, option_copied, IfOk};
ghost use Rattle.core_model.specs.Plans.{split_regions};
ghost use Rattle.plain_model.specs.Keys.{key_of};
ghost use Rattle.hb_records.specs.declared.region_info.RegionInfo.{RegionInfo};

use hb_names::TableName;
use hb_records::RegionInfo;
use hb_wire::{Blob, Copied, Items, NoMemory};
use plain_model::RegionKey;
use plain_tables::keys::key_of;
use std::alloc::{AllocError, Global};

/// The regions between rows at which a table is split. `id`: that of the first.
pub(crate) fn split_regions(
    alloc: Global,
    table: &TableName,
    splits: &[Blob],
    id: u64,
) -> Result<Items<RegionInfo>, NoMemory>
    ensures { IfOk result (λ regions. regions ≡ split_regions table.now id [] splits.now) }
{
    let mut regions = Vec::new(alloc);
    let mut start = Blob::from_vec(Vec::new(alloc));
    let mut next = id;
    for row in splits {
        regions.push(region_between(table, next, &start, Some(row))?)?;
        start = row.copy()?;
        next = next.checked_add(1).ok_or(AllocError)?;
    }
    regions.push(region_between(table, next, &start, None)?)?;
    Ok(Items::from_vec(regions))
}

/// A region of a table between two rows.
fn region_between(
    table: &TableName,
    id: u64,
    start: &Blob,
    end: Option<&Blob>,
) -> Result<RegionInfo, NoMemory>
    ensures { IfOk result (λ region. region ≡ record { id = id; table = table.now; start = start.now; end = option_copied end.entry }) }
{
    let end = match end {
        Some(row) => Some(row.copy()?),
        None => None,
    };
    Ok(RegionInfo {
        id,
        table: table.copy()?,
        start: start.copy()?,
        end,
    })
}

/// The keys of regions.
pub(crate) fn keys_of(alloc: Global, regions: &[RegionInfo]) -> Result<Items<RegionKey>, NoMemory>
    ensures { IfOk result (λ keys. keys ≡ map key_of regions.now) }
{
    let mut keys = Vec::with_capacity(alloc, regions.len())?;
    for region in regions {
        keys.push(key_of(alloc, region)?)?;
    }
    Ok(Items::from_vec(keys))
}

/// The keys of a region set's regions, split ones too.
pub(crate) fn keys_listed(
    alloc: Global,
    regions: &[(RegionInfo, bool)],
) -> Result<Items<RegionKey>, NoMemory>
    ensures { IfOk result (λ keys. keys ≡ map (λ (x : RegionInfo × _). key_of x.0) regions.now) }
{
    let mut keys = Vec::with_capacity(alloc, regions.len())?;
    for (region, _) in regions {
        keys.push(key_of(alloc, region)?)?;
    }
    Ok(Items::from_vec(keys))
}
