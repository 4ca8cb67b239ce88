//! The state of a core, part by part.

ghost use Rattle.std.specs.Prelude.{OnOk, IfOk};
ghost use Rattle.world_state.specs.Parts.{IsAfter, IsFound, IsSame};
ghost use Rattle.world_state.specs.Rooms.{HasPlaces};

use crate::at_work::{AtWork, works_after};
use crate::change::Change;
use crate::counts::{Counts, closed_after, counts_after, ready_counts};
use crate::drawn::drawn_after;
use crate::places::places_found;
use crate::sets::{ready_sets, set_of, sets_after};
use crate::written::{WrittenFile, ready_written, written_after};
use core_model::{Found, Snapshot};
use core_places::{places_after, ready_places};
use hb_file_names::FileName;
use hb_names::{Place, SnapName, TableName};
use hb_wire::NoMemory;
use plain_model::RegionKey;
use region_set::RegionSet;
use reserved_map::ReservedMap;
use std::alloc::Global;

/// The state of a core, part by part: what was counted, the regions whose names were drawn, the places of files, the
/// temporary files that stand, the newest region set of each table, the complete snapshots, the activities at work, the
/// earliest first, and the number of the entry at which the store closed.
#[derive(Drop)]
pub struct CoreState {
    pub(crate) counts: Counts,
    pub(crate) drawn: ReservedMap<RegionKey, ()>,
    pub(crate) places: ReservedMap<Place, ()>,
    pub(crate) written: ReservedMap<FileName, WrittenFile>,
    pub(crate) sets: ReservedMap<TableName, RegionSet>,
    pub(crate) snapshots: ReservedMap<SnapName, Snapshot>,
    pub(crate) works: Vec<AtWork>,
    pub(crate) closed: Option<u32>,
}

impl CoreState {
    /// The state that an opening leaves.
    pub(crate) fn found(alloc: Global, found: Found) -> Result<CoreState, NoMemory>
        ensures { IfOk result (IsFound found) }
    {
        Ok(CoreState {
            counts: Counts::none(),
            drawn: ReservedMap::new(alloc),
            places: places_found(alloc, found.places)?,
            written: ReservedMap::new(alloc),
            sets: ReservedMap::from_pairs(alloc, found.sets.into_vec())?,
            snapshots: ReservedMap::from_pairs(alloc, found.snapshots.into_vec())?,
            works: Vec::new(alloc),
            closed: None,
        })
    }

    /// Takes the memory that a change needs.
    pub(crate) fn reserve(&mut self, change: &Change) -> Result<(), NoMemory>
        ensures ready { OnOk result (HasPlaces self.new change.now) }
        ensures same { IsSame self.old self.new }
    {
        ready_counts(self.counts, change.counts)?;
        self.drawn.reserve_all(change.drawn.as_slice())?;
        ready_places(&mut self.places, &change.places)?;
        ready_written(&mut self.written, &change.written)?;
        ready_sets(&mut self.sets, &change.sets)?;
        self.works.reserve(1)?;
        Ok(())
    }

    /// Makes a change, by the entry of this number. It takes no memory.
    pub(crate) fn enter(&mut self, alloc: Global, number: u32, failed: bool, change: Change)
        requires { HasPlaces self.old change }
        ensures { IsAfter change number failed self.old self.new }
    {
        self.closed = closed_after(number, failed, self.closed);
        self.counts = counts_after(self.counts, change.counts);
        drawn_after(&mut self.drawn, change.drawn.as_slice());
        places_after(&mut self.places, &change.places);
        let taken = written_after(&mut self.written, change.written);
        sets_after(&mut self.sets, change.sets, set_of(taken));
        works_after(alloc, &mut self.works, change.works);
    }
}
