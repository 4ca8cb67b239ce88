//! The regions of a table.

ghost use Rattle.std.specs.Prelude.{◌≡◌, IfOk, option_copied};
ghost use Rattle.region_set.specs.RegionLine.{region_cmp};
ghost use Rattle.plain_model.specs.Rows.{holds_row, region_of};
ghost use Rattle.plain_model.specs.TableEvents.{is_one_of, with_region, with_split, without_regions};
ghost use Rattle.plain_model.specs.LiveEvents.{region_in};
ghost use Rattle.plain_tables.specs.IsOpen.{is_open_in};

use crate::keys::encoded;
use hb_names::Encoded;
use hb_records::RegionInfo;
use hb_wire::{Blob, Copied, Items, NoMemory};
use std::alloc::Global;
use std::cmp::Ordering;

/// The order of regions in a set.
fn cmp_regions(a: &RegionInfo, b: &RegionInfo) -> Ordering
    ensures { result ≡ region_cmp a.now b.now }
{
    match a.start.cmp(&b.start) {
        Ordering::Equal => a.id.cmp(&b.id),
        by_start => by_start,
    }
}

/// The regions with one more, open, at its place.
pub(crate) fn with_region(
    region: RegionInfo,
    regions: Items<(RegionInfo, bool)>,
) -> Result<Items<(RegionInfo, bool)>, NoMemory>
    ensures { IfOk result (λ all. all ≡ with_region region regions) }
{
    let mut all = regions.into_vec();
    let mut at = 0;
    while at < all.len() && cmp_regions(&region, &all[at].0).is_gt() {
        at += 1;
    }
    match all.insert(at, (region, false)) {
        Ok(()) => Ok(Items::from_vec(all)),
        Err(_) => Err(std::alloc::AllocError),
    }
}

/// Whether a region is one of these.
fn is_one_of(
    alloc: Global,
    names: &[Encoded],
    region: &(RegionInfo, bool),
) -> Result<bool, NoMemory>
    ensures { IfOk result (λ found. found ≡ is_one_of names.now region.now) }
{
    let name = encoded(alloc, &region.0)?;
    Ok(names.contains(&name))
}

/// The regions, with these marked as split.
pub(crate) fn with_split(
    alloc: Global,
    names: &[Encoded],
    regions: &[(RegionInfo, bool)],
) -> Result<Items<(RegionInfo, bool)>, NoMemory>
    ensures { IfOk result (λ all. all ≡ with_split names.now regions.now) }
{
    let mut all = Vec::new(alloc);
    for region in regions {
        let is_split = is_one_of(alloc, names, region)?;
        all.push((region.0.copy()?, region.1 || is_split))?;
    }
    Ok(Items::from_vec(all))
}

/// The regions without these.
pub(crate) fn without_regions(
    alloc: Global,
    names: &[Encoded],
    regions: &[(RegionInfo, bool)],
) -> Result<Items<(RegionInfo, bool)>, NoMemory>
    ensures { IfOk result (λ all. all ≡ without_regions names.now regions.now) }
{
    let mut all = Vec::new(alloc);
    for region in regions {
        if !is_one_of(alloc, names, region)? {
            all.push(region.copy()?)?;
        }
    }
    Ok(Items::from_vec(all))
}

/// Whether a region holds a row.
fn holds_row(info: &RegionInfo, row: &Blob) -> bool
    ensures { result ≡ holds_row info.now row.now }
{
    let is_before_end = match &info.end {
        Some(end) => *row < *end,
        None => true,
    };
    !(*row < info.start) && is_before_end
}

/// The open region that holds a row.
pub fn region_of<'a>(regions: &'a [(RegionInfo, bool)], row: &Blob) -> Option<&'a RegionInfo>
    ensures { option_copied result ≡ region_of regions.now row.now }
{
    for region in regions {
        if !region.1 && holds_row(&region.0, row) {
            return Some(&region.0);
        }
    }
    None
}

/// The region of an encoded name.
pub fn region_in<'a>(
    alloc: Global,
    regions: &'a [(RegionInfo, bool)],
    name: &Encoded,
) -> Result<Option<&'a RegionInfo>, NoMemory>
    ensures { IfOk result (λ found. option_copied found ≡ region_in regions.now name.now) }
{
    for region in regions {
        if encoded(alloc, &region.0)? == *name {
            return Ok(Some(&region.0));
        }
    }
    Ok(None)
}

/// Whether an open region has an encoded name.
pub fn is_open(
    alloc: Global,
    regions: &[(RegionInfo, bool)],
    name: &Encoded,
) -> Result<bool, NoMemory>
    ensures { IfOk result (λ found. found ≡ is_open_in regions.now name.now) }
{
    for region in regions {
        if !region.1 && encoded(alloc, &region.0)? == *name {
            return Ok(true);
        }
    }
    Ok(false)
}
