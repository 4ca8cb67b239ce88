//! The parts of a plain state, as lists.

ghost use Rattle.std.specs.Prelude.{◌≡◌, [], IfOk};
ghost use Rattle.plain_events.specs.State.{HasNumber, IsAfter, nothing, state_with};

use crate::activities::{Kept, live_after};
use crate::after::{
    captures_after, frozen_after, kept_after, mem_after, noted_after, seq_after, stable_after,
};
use crate::by_region::ByRegion;
use hb_cell::Cell;
use hb_wire::{Items, NoMemory};
use plain_model::{Event, Live, RegionCopy};
use plain_tables::snapshots::Snapshots;
use plain_tables::tables::{Tables, tables_after};
use std::alloc::Global;

/// All of a plain state but its snapshots.
#[derive(Drop)]
pub struct State {
    pub tables: Tables,
    /// The cells of a region's files.
    pub stable: ByRegion<Items<Cell>>,
    /// Its unflushed cells, in order of arrival.
    pub mem: ByRegion<Items<Cell>>,
    /// How many at the front of these are frozen.
    pub frozen: ByRegion<usize>,
    /// Its last sequence number.
    pub seq: ByRegion<u64>,
    /// The number that a stop leaves.
    pub kept: ByRegion<u64>,
    /// The activities at work, in the order of their starts.
    pub live: Items<Live>,
    /// What each has captured of a region.
    pub captures: Kept<RegionCopy>,
    /// How many cells each found in a region's files when its major compaction began.
    pub noted: Kept<usize>,
}

impl State {
    /// No table and no activity. It takes no memory.
    pub fn new(alloc: Global) -> State
        ensures { state_with result [] ≡ nothing }
    {
        State {
            tables: Items::new(alloc),
            stable: Items::new(alloc),
            mem: Items::new(alloc),
            frozen: Items::new(alloc),
            seq: Items::new(alloc),
            kept: Items::new(alloc),
            live: Items::new(alloc),
            captures: Items::new(alloc),
            noted: Items::new(alloc),
        }
    }

    /// The state after an event, whatever its snapshots then are.
    pub fn after(
        &self,
        alloc: Global,
        snapshots: &Snapshots,
        event: &Event,
    ) -> Result<State, NoMemory>
        requires { HasNumber event.now (state_with self.now snapshots.now.entries) }
        ensures { IfOk result (IsAfter event.now self.now snapshots.now.entries) }
    {
        Ok(State {
            tables: tables_after(alloc, &self.tables, snapshots, event)?,
            stable: stable_after(alloc, self, snapshots, event)?,
            mem: mem_after(alloc, self, event)?,
            frozen: frozen_after(alloc, self, event)?,
            seq: seq_after(alloc, self, snapshots, event)?,
            kept: kept_after(alloc, self, snapshots, event)?,
            live: live_after(alloc, &self.live, event)?,
            captures: captures_after(alloc, self, event)?,
            noted: noted_after(alloc, self, event)?,
        })
    }
}
