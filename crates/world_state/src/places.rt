//! The places of files, at the opening.

ghost use Rattle.std.specs.Prelude.{◌≡◌, IfOk};
ghost use Rattle.hb_cell.specs.Order.{bytes_cmp};
ghost use Rattle.reserved_map.specs.Filled.{filled};
ghost use Rattle.world_state.specs.Opened.{places_in};

use hb_names::Place;
use hb_wire::{Items, NoMemory};
use reserved_map::ReservedMap;
use std::alloc::Global;

/// The places of files that were found.
pub(crate) fn places_found(
    alloc: Global,
    places: Items<Place>,
) -> Result<ReservedMap<Place, ()>, NoMemory>
    ensures { IfOk result (λ found. filled bytes_cmp found ≡ places_in places) }
{
    let mut pairs = Vec::with_capacity(alloc, places.len())?;
    for place in places.into_vec() {
        pairs.push((place, ()))?;
    }
    ReservedMap::from_pairs(alloc, pairs)
}
