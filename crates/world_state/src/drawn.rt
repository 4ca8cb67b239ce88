//! The regions whose names were drawn.

ghost use Rattle.std.specs.Prelude.{◌≡◌, true, map, IfOk};
ghost use Rattle.std.specs.List.{All};
ghost use Rattle.plain_model.specs.Keys.{key_of};
ghost use Rattle.reserved_map.specs.Filled.{filled, is_reserved};
ghost use Rattle.reserved_map.specs.Keys.{region_cmp};
ghost use Rattle.world_state.specs.Changes.{keys_drawn, start_keys};
ghost use Rattle.world_state.specs.Parts.{with_all};

use core_model::{Drawn, Started, Step};
use hb_records::RegionInfo;
use hb_wire::{Items, NoMemory};
use plain_model::RegionKey;
use plain_tables::keys::key_of;
use reserved_map::ReservedMap;
use std::alloc::Global;

/// The keys of the regions that a step draws.
pub(crate) fn keys_drawn(alloc: Global, step: &Step) -> Result<Items<RegionKey>, NoMemory>
    ensures { IfOk result (λ keys. keys ≡ keys_drawn step.now) }
{
    match step {
        Step::Start { started, drawn, .. } => start_keys(alloc, started, drawn),
        _ => Ok(Items::new(alloc)),
    }
}

fn start_keys(alloc: Global, started: &Started, drawn: &Drawn) -> Result<Items<RegionKey>, NoMemory>
    ensures { IfOk result (λ keys. keys ≡ start_keys started.now drawn.now) }
{
    match started {
        Started::Live(_) => keys_of_regions(alloc, drawn.regions.as_slice()),
        Started::Refused(_) => Ok(Items::new(alloc)),
    }
}

fn keys_of_regions(alloc: Global, regions: &[RegionInfo]) -> Result<Items<RegionKey>, NoMemory>
    ensures { IfOk result (λ keys. keys ≡ map key_of regions.now) }
{
    let mut keys = Vec::with_capacity(alloc, regions.len())?;
    for region in regions {
        keys.push(key_of(alloc, region)?)?;
    }
    Ok(Items::from_vec(keys))
}

/// Adds keys for which memory was taken. It takes no memory.
pub(crate) fn drawn_after(drawn: &mut ReservedMap<RegionKey, ()>, keys: &[RegionKey])
    requires { All (λ key. is_reserved region_cmp drawn.old key ≡ true) keys.now }
    ensures { filled region_cmp drawn.new ≡ with_all keys.now (filled region_cmp drawn.old) }
{
    for key in keys {
        drawn.put(key, ());
    }
}
