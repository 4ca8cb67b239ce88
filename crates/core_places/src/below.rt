//! Whether files stand in the directories of a region.

ghost use Rattle.std.specs.Prelude.{◌≡◌, ◌↔◌, ◌++◌, ◌∷◌, true, IfOk, OnOk};
ghost use Rattle.hb_cell.specs.Order.{bytes_cmp};
ghost use Rattle.hb_names.specs.Place.{IsPlace};
ghost use Rattle.reserved_map.specs.Filled.{filled};
ghost use Rattle.core_model.specs.Entries.{IsKey};
ghost use Rattle.core_places.specs.Below.{AreOfSites, HasBelow, HasFilesOf, least_below};

use hb_names::Place;
use hb_wire::{Blob, Copied, NoMemory};
use plain_model::RegionKey;
use reserved_map::ReservedMap;
use std::alloc::Global;
use std::ops::Bound;

/// Whether a file stands below one of a region's directories: that of the files that it uses, or that in the archive. Of
/// the places it looks at the first that may lie in each.
pub fn stands_below(
    alloc: Global,
    places: &ReservedMap<Place, ()>,
    region: &RegionKey,
) -> Result<bool, NoMemory>
    ensures key { OnOk result (IsKey region.now) }
    ensures below { IfOk result (λ stands. AreOfSites (filled bytes_cmp places.now) → (stands ≡ true) ↔ HasFilesOf (filled bytes_cmp places.now) region.now) }
{
    let data = directory(alloc, b"data/default/", region)?;
    if has_below(alloc, places, data.as_slice())? {
        return Ok(true);
    }
    let archive = directory(alloc, b"archive/data/default/", region)?;
    has_below(alloc, places, archive.as_slice())
}

/// The directory of a region under a root.
fn directory(alloc: Global, root: &[u8], region: &RegionKey) -> Result<Blob, NoMemory>
    ensures key { OnOk result (IsKey region.now) }
    ensures text { IfOk result (λ text. text ≡ root.now ++ (region.now.table ++ 47 ∷ region.now.region)) }
{
    let mut text = Blob::copy_of(alloc, root)?;
    text.add(region.table.as_slice())?;
    text.add(b"/")?;
    text.add(region.region.as_slice())?;
    Ok(text)
}

/// Whether a file stands below a directory: whether the first place at or after the least that may lie there does.
fn has_below(alloc: Global, places: &ReservedMap<Place, ()>, dir: &[u8]) -> Result<bool, NoMemory>
    requires { IsPlace (least_below dir.now) }
    ensures { IfOk result (λ stands. AreOfSites (filled bytes_cmp places.now) → (stands ≡ true) ↔ HasBelow (filled bytes_cmp places.now) dir.now) }
{
    let mut front = Blob::copy_of(alloc, dir)?;
    front.add(b"/")?;
    let mut least = front.copy()?;
    least.add(b"-")?;
    let least = Place::from_blob(least);
    match places.first_from(Bound::Included(&least)) {
        Some((place, _)) => Ok(place.as_slice().starts_with(front.as_slice())),
        None => Ok(false),
    }
}
