//! A value for each region, as the list of those that were set, the last of them first.

ghost use Rattle.std.specs.Prelude.{◌≡◌, ◌∷◌, [], IfOk};
ghost use Rattle.plain_events.specs.Parts.{by_region};

use hb_cell::Cell;
use hb_wire::{Copied, Items, NoMemory};
use plain_cells::lists::joined;
use plain_model::RegionKey;
use std::alloc::Global;

/// A value for each region, the last that was set first.
pub type ByRegion<T> = Items<(RegionKey, T)>;

/// The value of a region, which is this one where none was set.
pub fn value_of<'a, T>(entries: &'a [(RegionKey, T)], key: &RegionKey, unset: &'a T) -> &'a T
    ensures { result.now ≡ by_region unset.now entries.now key.now }
{
    for entry in entries {
        if *key == entry.0 {
            return &entry.1;
        }
    }
    unset
}

/// The cells of a region, which are none where none were set.
pub fn cells_at<'a>(entries: &'a [(RegionKey, Items<Cell>)], key: &RegionKey) -> &'a [Cell]
    ensures { result.now ≡ by_region [] entries.now key.now }
{
    for entry in entries {
        if *key == entry.0 {
            return entry.1.as_slice();
        }
    }
    &[]
}

/// The values with one more in front.
pub(crate) fn with_value<T: Copied>(
    alloc: Global,
    key: RegionKey,
    value: T,
    entries: &ByRegion<T>,
) -> Result<ByRegion<T>, NoMemory>
    ensures { IfOk result (λ all. all ≡ (key, value) ∷ entries.now) }
{
    let mut first = Vec::new(alloc);
    first.push((key, value))?;
    joined(Items::from_vec(first), entries.as_slice())
}
