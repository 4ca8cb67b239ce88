//! What an entry changes, part by part.

ghost use Rattle.std.specs.Prelude.{◌≡◌, IfOk, OnOk};
ghost use Rattle.core_model.specs.Ops.{op_of};
ghost use Rattle.core_sites.specs.Shows.{MakesSpelled};
ghost use Rattle.core_places.specs.Served.{IsServed};
ghost use Rattle.world_state.specs.Changes.{change_by, change_made, ended, ending, nothing};
ghost use Rattle.world_state.specs.Rooms.{GivesBegun, NeedsReady};

use crate::at_work::{Begun, WorkChange, work_change};
use crate::counts::{CountChange, count_change};
use crate::drawn::keys_drawn;
use crate::sets::{SetChange, set_change};
use crate::written::{WrittenChange, written_change};
use core_model::{JournalEntry, Step};
use core_places::{PlaceChange, change_of};
use hb_wire::{Items, NoMemory};
use plain_model::{Actor, RegionKey};
use std::alloc::Global;

/// What an entry changes, part by part.
#[derive(Drop)]
pub struct Change {
    pub counts: CountChange,
    pub drawn: Items<RegionKey>,
    pub places: PlaceChange,
    pub written: WrittenChange,
    pub sets: SetChange,
    pub works: WorkChange,
}

impl Change {
    /// Nothing changes. It takes no memory.
    pub(crate) fn nothing(alloc: Global) -> Change
        ensures { result ≡ nothing }
    {
        Change {
            counts: CountChange::Nothing,
            drawn: Items::new(alloc),
            places: PlaceChange {
                gone: None,
                made: None,
            },
            written: WrittenChange::Same,
            sets: SetChange::Same,
            works: WorkChange::Same,
        }
    }

    /// An activity ends. It takes no memory.
    fn end(alloc: Global, actor: Actor) -> Change
        ensures { result ≡ ended actor }
    {
        Change {
            works: WorkChange::Ends(actor),
            ..Change::nothing(alloc)
        }
    }

    /// What a step changes. `begun`: what a start has beside its step.
    pub(crate) fn of_step(
        alloc: Global,
        step: &Step,
        begun: Option<Begun>,
    ) -> Result<Change, NoMemory>
        requires served { IsServed step.now }
        requires begun { GivesBegun step.now begun }
        ensures spelled { OnOk result (MakesSpelled (op_of step.now)) }
        ensures change { IfOk result (λ change. change ≡ change_by step.now) }
    {
        Ok(Change {
            counts: count_change(step),
            drawn: keys_drawn(alloc, step)?,
            places: change_of(alloc, step)?,
            written: written_change(step)?,
            sets: set_change(step)?,
            works: work_change(step, begun)?,
        })
    }

    /// What an entry changes, which is nothing where it failed. `ready`: what its step changes; for the ends of
    /// activities, which need not be prepared, it may be anything. It takes no memory.
    pub(crate) fn of_entry(alloc: Global, entry: &JournalEntry, ready: Change) -> Change
        requires { NeedsReady entry.now.step (ready ≡ change_by entry.now.step) }
        ensures { result ≡ change_made entry.now.failed entry.now.step }
    {
        if entry.failed {
            drop(ready);
            return Change::nothing(alloc);
        }
        made(alloc, &entry.step, ready)
    }
}

/// What a step changes that is made.
fn made(alloc: Global, step: &Step, ready: Change) -> Change
    requires { NeedsReady step.now (ready ≡ change_by step.now) }
    ensures { result ≡ change_by step.now }
{
    if let Some(actor) = ending(step) {
        drop(ready);
        return Change::end(alloc, actor);
    }
    ready
}

/// The activity that a step ends.
fn ending(step: &Step) -> Option<Actor>
    ensures { result ≡ ending step.now }
{
    match step {
        Step::End { actor, .. } => Some(*actor),
        Step::Abandon { actor } => Some(*actor),
        _ => None,
    }
}
