ghost use Rattle.std.specs.Prelude.{◌≡◌, ℕ, List, [], None, IfOk, OnOk};
ghost use Rattle.cell_sight.specs.Member.{Member};
ghost use Rattle.hb_layout.specs.Lawful.{IsListNumber};
ghost use Rattle.core_model.specs.Site.{StoreList, site_text};
ghost use Rattle.core_sites.specs.Shows.{HasSite, IsSpelledSite};

use super::*;
use core_model::{Found, JournalEntry, Opening, Step};
use hb_ghost::{Ghost, Reads};
use hb_names::{Encoded, Place, TableName};
use hb_wire::{Blob, Items, NoMemory};
use ns_tree::Tree;
use plain_model::{RegionKey, Who};
use std::alloc::Global;
use std::test::Fail;

struct Itself;

impl Reads<Found, Found> for Itself {
    ghost reads = { λ found. found };
}

struct Untold;

impl Reads<(), Option<Tree>> for Untold {
    ghost reads = { λ _. None };
}

/// An opening that found nothing.
fn opening(found: &Found) -> Opening
    ensures found { result.found ≡ found.now }
    ensures tree { result.tree ≡ None }
{
    Opening {
        epoch: 1,
        ttl: 300_000,
        tree: Ghost::<Option<Tree>>::of::<(), Untold>(&()),
        found: Ghost::<Found>::of::<Found, Itself>(found),
    }
}

/// A core over these files, in a store that tells nothing.
fn core_over(alloc: Global, places: Items<Place>) -> Result<Core, NoMemory>
    requires { (place : List ℕ) → Member place places → HasSite place }
    ensures { IfOk result (λ core. core.entries ≡ []) }
{
    let found = Found {
        places,
        cells: Items::new(alloc),
        lists: Items::new(alloc),
        sets: Items::new(alloc),
        snapshots: Items::new(alloc),
    };
    let opening = opening(&found);
    Core::new(alloc, opening, found)
}

/// The place of a region's first list.
fn list_place(alloc: Global, region: &RegionKey) -> Result<Place, NoMemory>
    ensures { IfOk result HasSite }
{
    Ok(Place::from_blob(list_text(alloc, region, 1)?))
}

fn list_text(alloc: Global, region: &RegionKey, number: u64) -> Result<Blob, NoMemory>
    requires { IsListNumber number }
    ensures spelled { OnOk result (IsSpelledSite (StoreList region.now.table region.now.region number)) }
    ensures text { IfOk result (λ text. text ≡ site_text (StoreList region.now.table region.now.region number)) }
{
    let digits = number.to_string(alloc)?;
    let mut text = Blob::copy_of(alloc, b"data/default/")?;
    text.add(region.table.as_slice())?;
    text.add(b"/")?;
    text.add(region.region.as_slice())?;
    text.add(b"/.filelist/")?;
    text.add(digits.as_bytes())?;
    Ok(text)
}

/// A core over a region's list alone.
fn core_over_list(alloc: Global, region: &RegionKey) -> Result<Core, NoMemory> {
    let place = list_place(alloc, region)?;
    let mut places = Vec::with_capacity(alloc, 1)?;
    places.push(place)?;
    core_over(alloc, Items::from_vec(places))
}

fn list(core: &mut Core) -> Result<(), NoMemory>
    requires { core.old.entries ≡ [] }
{
    let who = Who { worker: 3, line: 1 };
    let step = Step::ListSnapshots { who };
    if let Err(error) = core.prepare(&step, None) {
        drop(step);
        return Err(error);
    }
    core.apply(JournalEntry {
        worker: 3,
        step,
        failed: false,
    });
    Ok(())
}

// The core is let go before any early return: a test would show the release of each of its parts there.
#[test]
fn a_listing_is_entered(rt: HostRuntime) -> Result<(), Fail> {
    let mut core = core_over(rt.alloc(), Items::new(rt.alloc()))?;
    let listed = list(&mut core);
    let closed = core.closed();
    let entries = core.len();
    drop(core);
    listed?;
    assert!(rt; closed.is_none());
    assert!(rt; entries == 1);
    Ok(())
}

#[test]
fn a_list_stands_below_its_region(rt: HostRuntime) -> Result<(), Fail> {
    let region = RegionKey {
        table: TableName::read(rt.alloc(), b"t")?,
        region: Encoded::read(rt.alloc(), b"0123456789abcdef0123456789abcdef")?,
    };
    let neighbour = RegionKey {
        table: TableName::read(rt.alloc(), b"t")?,
        region: Encoded::read(rt.alloc(), b"0123456789abcdef0123456789abcdee")?,
    };
    let core = core_over_list(rt.alloc(), &region)?;
    let own = core.stands_below(&region);
    let others = core.stands_below(&neighbour);
    drop(core);
    assert!(rt; own?);
    assert!(rt; !others?);
    Ok(())
}
