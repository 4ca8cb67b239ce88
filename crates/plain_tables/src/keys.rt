//! Names and keys of regions.

ghost use Rattle.std.specs.Prelude.{◌≡◌, IfOk};
ghost use Rattle.plain_model.specs.Keys.{encoded, key_of};

use hb_names::{Encoded, RegionName, encode_region};
use hb_records::RegionInfo;
use hb_wire::{Copied, NoMemory};
use plain_model::RegionKey;
use std::alloc::Global;

/// The encoded name of a region.
pub(crate) fn encoded(alloc: Global, info: &RegionInfo) -> Result<Encoded, NoMemory>
    ensures { IfOk result (λ name. name ≡ encoded info.now) }
{
    let name = RegionName {
        table: info.table.copy()?,
        start: info.start.copy()?,
        id: info.id,
    };
    encode_region(alloc, &name)
}

/// The key of a region.
pub fn key_of(alloc: Global, info: &RegionInfo) -> Result<RegionKey, NoMemory>
    ensures { IfOk result (λ key. key ≡ key_of info.now) }
{
    Ok(RegionKey {
        table: info.table.copy()?,
        region: encoded(alloc, info)?,
    })
}
