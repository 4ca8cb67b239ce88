//! Snapshots that are completed and deleted.

ghost use Rattle.std.specs.Prelude.{◌≡◌, IfOk, OnOk, OnErr};
ghost use Rattle.plain_model.specs.SnapshotEvents.{captured, with_snapshot, completed, snapshots_on};
ghost use Rattle.std.specs.FinMap as map;
ghost use Rattle.plain_model.specs.LiveEvents.{job_of};
ghost use Rattle.plain_model.specs.Rows.{open_of};
ghost use Rattle.plain_events.specs.Parts.{by_actor};
ghost use Rattle.plain_tables.specs.ByName.{by_name, by_entry};

use crate::activities::{kept_by, live_of};
use crate::state::State;
use hb_names::{SnapName, TableName};
use hb_records::RegionInfo;
use hb_wire::{Copied, Items, NoMemory};
use plain_model::{Actor, Event, Job, Live, PlainSnapshot, RegionCopy, RegionKey};
use plain_tables::keys::key_of;
use plain_tables::snapshots::{Snapshots, add, take_away};
use plain_tables::tables::table_at;
use std::alloc::Global;

/// The open regions of a set.
fn open_of(alloc: Global, regions: &[(RegionInfo, bool)]) -> Result<Items<RegionInfo>, NoMemory>
    ensures { IfOk result (λ some. some ≡ open_of regions.now) }
{
    let mut some = Vec::new(alloc);
    for region in regions {
        if !region.1 {
            some.push(region.0.copy()?)?;
        }
    }
    Ok(Items::from_vec(some))
}

/// What an activity captured of some regions, in their order.
fn captured(
    alloc: Global,
    captures: &[(Actor, RegionKey, Option<RegionCopy>)],
    actor: Actor,
    regions: &[RegionInfo],
) -> Result<Items<RegionCopy>, NoMemory>
    ensures { IfOk result (λ copies. copies ≡ captured (by_actor captures.now actor.0) regions.now) }
{
    let mut copies = Vec::new(alloc);
    for region in regions {
        let key = key_of(alloc, region)?;
        if let Some(copy) = kept_by(captures, actor, &key) {
            copies.push(copy.copy()?)?;
        }
    }
    Ok(Items::from_vec(copies))
}

/// Makes the captures of a table the snapshot of a name.
fn take(
    alloc: Global,
    state: &State,
    snapshots: &mut Snapshots,
    actor: Actor,
    table: &TableName,
    name: &SnapName,
) -> Result<(), NoMemory>
    ensures ok { OnOk result (by_entry snapshots.new.entries ≡ with_snapshot name.now (by_actor state.now.captures actor.0) (map.get (by_name state.now.tables) table.now) (by_entry snapshots.old.entries)) }
    ensures err { OnErr result (snapshots.new.entries ≡ snapshots.old.entries) }
{
    let Some(table) = table_at(state.tables.as_slice(), table) else {
        return Ok(());
    };
    let open = open_of(alloc, table.regions.as_slice())?;
    let regions = captured(alloc, state.captures.as_slice(), actor, open.as_slice())?;
    let schema = table.schema.copy()?;
    add(snapshots, name.copy()?, PlainSnapshot { schema, regions })
}

/// Makes the captures of an activity the snapshot that it takes.
fn complete(
    alloc: Global,
    state: &State,
    snapshots: &mut Snapshots,
    actor: Actor,
) -> Result<(), NoMemory>
    ensures ok { OnOk result (by_entry snapshots.new.entries ≡ completed (job_of state.now.live actor.0) (by_actor state.now.captures actor.0) (by_name state.now.tables) (by_entry snapshots.old.entries)) }
    ensures err { OnErr result (snapshots.new.entries ≡ snapshots.old.entries) }
{
    match live_of(state.live.as_slice(), actor) {
        Some(
            Live {
                job: Job::Snapshot { table, snapshot },
                ..
            },
        ) => take(alloc, state, snapshots, actor, table, snapshot),
        _ => Ok(()),
    }
}

/// Makes the snapshots those after an event.
pub fn change_snapshots(
    alloc: Global,
    state: &State,
    snapshots: &mut Snapshots,
    event: &Event,
) -> Result<(), NoMemory>
    ensures ok { OnOk result (by_entry snapshots.new.entries ≡ snapshots_on event.now state.now.live (by_actor state.now.captures) (by_name state.now.tables) (by_entry snapshots.old.entries)) }
    ensures err { OnErr result (snapshots.new.entries ≡ snapshots.old.entries) }
{
    match event {
        Event::Complete(actor) => complete(alloc, state, snapshots, *actor),
        Event::Delete(name) => {
            take_away(snapshots, name);
            Ok(())
        }
        _ => Ok(()),
    }
}
