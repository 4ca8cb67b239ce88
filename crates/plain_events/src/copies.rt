//! Values of regions that an event sets.

ghost use Rattle.std.specs.Prelude.{◌≡◌, IfOk};
ghost use Rattle.plain_model.specs.CellEvents.{each_with, cells_by_key, numbers_by_key};

use hb_cell::Cell;
use hb_records::RegionInfo;
use hb_wire::{Copied, Items, NoMemory};
use plain_model::{RegionCopy, RegionKey};
use plain_tables::keys::key_of;
use std::alloc::Global;

/// The regions, each with this value.
pub(crate) fn each_with<T: Copied>(
    alloc: Global,
    value: &T,
    regions: &[RegionInfo],
) -> Result<Items<(RegionKey, T)>, NoMemory>
    ensures { IfOk result (λ all. all ≡ each_with value.now regions.now) }
{
    let mut all = Vec::new(alloc);
    for region in regions {
        all.push((key_of(alloc, region)?, value.copy()?))?;
    }
    Ok(Items::from_vec(all))
}

/// The regions, each with the cells of its copy.
pub(crate) fn with_cells(
    alloc: Global,
    regions: &[RegionInfo],
    copies: &[RegionCopy],
) -> Result<Items<(RegionKey, Items<Cell>)>, NoMemory>
    ensures { IfOk result (λ all. all ≡ cells_by_key regions.now copies.now) }
{
    let mut all = Vec::new(alloc);
    for i in 0..regions.len() {
        if i >= copies.len() {
            return Ok(Items::from_vec(all));
        }
        all.push((key_of(alloc, &regions[i])?, copies[i].cells.copy()?))?;
    }
    Ok(Items::from_vec(all))
}

/// The regions, each with the number of its copy.
pub(crate) fn with_numbers(
    alloc: Global,
    regions: &[RegionInfo],
    copies: &[RegionCopy],
) -> Result<Items<(RegionKey, u64)>, NoMemory>
    ensures { IfOk result (λ all. all ≡ numbers_by_key regions.now copies.now) }
{
    let mut all = Vec::new(alloc);
    for i in 0..regions.len() {
        if i >= copies.len() {
            return Ok(Items::from_vec(all));
        }
        all.push((key_of(alloc, &regions[i])?, copies[i].number))?;
    }
    Ok(Items::from_vec(all))
}
