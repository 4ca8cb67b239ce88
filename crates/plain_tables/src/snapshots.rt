//! The completed snapshots, in the order of their names.

ghost use Rattle.std.specs.Prelude.{◌≡◌, IfOk, OnOk, OnErr, option_copied};
ghost use Rattle.std.specs.FinMap as map;
ghost use Rattle.plain_tables.specs.ByName.{by_entry};

use hb_names::SnapName;
use hb_wire::{Copied, Items, NoMemory};
use plain_model::PlainSnapshot;
use std::alloc::{AllocError, Global};
use std::collections::BTreeMap;

/// The completed snapshots by name.
pub type Snapshots = BTreeMap<SnapName, PlainSnapshot>;

/// The snapshot of a name.
#[tactic(auto, using(crate::proofs::Entries::get_entry))]
pub fn snapshot_at<'a>(snapshots: &'a Snapshots, name: &SnapName) -> Option<&'a PlainSnapshot>
    ensures { option_copied result ≡ map.get (by_entry snapshots.now.entries) name.now }
{
    snapshots.get(name)
}

/// Adds a snapshot, in place of one of its name.
#[tactic(auto, using(crate::proofs::Entries::insert_from_entries))]
pub fn add(
    snapshots: &mut Snapshots,
    name: SnapName,
    snapshot: PlainSnapshot,
) -> Result<(), NoMemory>
    ensures ok { OnOk result (by_entry snapshots.new.entries ≡ map.insert (by_entry snapshots.old.entries) name snapshot) }
    ensures err { OnErr result (snapshots.new.entries ≡ snapshots.old.entries) }
{
    match snapshots.insert(name, snapshot) {
        Ok(_) => Ok(()),
        Err(_) => Err(AllocError),
    }
}

/// Takes a snapshot away.
#[tactic(auto, using(crate::proofs::Entries::remove_from_entries))]
pub fn take_away(snapshots: &mut Snapshots, name: &SnapName)
    ensures { by_entry snapshots.new.entries ≡ map.remove (by_entry snapshots.old.entries) name.now }
{
    snapshots.remove(name);
}

/// The names of the snapshots, in byte order.
pub fn names(alloc: Global, snapshots: &Snapshots) -> Result<Items<SnapName>, NoMemory>
    ensures { IfOk result (λ names. names ≡ map.keys (by_entry snapshots.now.entries)) }
{
    let mut names = Vec::new(alloc);
    for name in snapshots.keys() {
        names.push(name.copy()?)?;
    }
    Ok(Items::from_vec(names))
}
