//! A core: what the entries of a journal made of the state.

ghost use Rattle.std.specs.Prelude.{◌≡◌, ◌↔◌, ◌+◌, ◌≤◌, ◌++◌, ◌∷◌, [], true, length, map, vec_len, vec_capacity, Some, None, IfOk, IfSome, OnOk, OnErr, is_some, option_copied, option_map};
ghost use Rattle.std.specs.FinMap as maps;
ghost use Rattle.std.specs.List.{AllByRecursion};
ghost use Rattle.cell_sight.specs.Member.{Member};
ghost use Rattle.core_model.specs.Allows.{AllowsEntry};
ghost use Rattle.core_model.specs.Disk.{is_regular};
ghost use Rattle.core_model.specs.FileChanges.{set_number};
ghost use Rattle.core_model.specs.Site.{Site, Tmp, site_text};
ghost use Rattle.core_model.specs.StartGuards.{StandsBelow};
ghost use Rattle.plain_model.specs.LiveEvents.{live_of};
ghost use Rattle.core_places.specs.Served.{IsServed};
ghost use Rattle.world_state.specs.Held.{parts_of, state_of};
ghost use Rattle.world_state.specs.Opened.{HasFound};
ghost use Rattle.world_state.specs.Parts.{IsReplay, recorded};
ghost use Rattle.world_state.specs.Rooms.{GivesBegun, NeedsReady};
ghost use Rattle.world_state.specs.Works.{IsWork, live_in};

use crate::at_work::{AtWork, Begun, work_of};
use crate::change::Change;
use crate::counts::Counts;
use crate::sets::number_of;
use crate::state::CoreState;
use crate::written::WrittenFile;
use core_model::{Found, Journal, JournalEntry, Opening, Step};
use hb_file_names::FileName;
use hb_ghost::{Ghost, Reads};
use hb_names::{Place, SnapName, TableName};
use hb_wire::{Items, NoMemory};
use plain_model::{Actor, RegionKey};
use region_set::RegionSet;
use std::alloc::{AllocError, Global};
use std::marker::Model;
use std::mem::replace;

/// What the entries of a journal made of the state, with the journal. Contracts see the opening, the entries, and the step
/// that was prepared; the state is their replay, and there is room for the ends of the activities at work.
#[derive(Drop)]
pub struct Core {
    alloc: Global,
    opening: Opening,
    entries: Vec<JournalEntry>,
    prepared: Ghost<Option<Step>>,
    ready: Change,
    state: CoreState,
}

struct SomeOf;

impl Reads<Step, Option<Step>> for SomeOf {
    ghost reads = { λ s. Some s };
}

fn step_of(step: &Step) -> Ghost<Option<Step>>
    ensures { result ≡ Some step.now }
{
    Ghost::<Option<Step>>::of::<Step, SomeOf>(step)
}

struct NoneOf;

impl Reads<(), Option<Step>> for NoneOf {
    ghost reads = { λ s. None };
}

fn no_step() -> Ghost<Option<Step>>
    ensures { result ≡ None }
{
    Ghost::<Option<Step>>::of::<(), NoneOf>(&())
}

impl Model for Core {
    ghost use Rattle.world_state.specs.Held.{Held};
    ghost use Rattle.std.specs.Coded.{codes};
    ghost use Rattle.ns_tree.specs.Coded.{tree_code};

    ghost Value = { Held };

    ghost coded = { Prim.hlevel (codes, tree_code) };

    ghost use Rattle.world_state.specs.Represents.{held, Represents};

    ghost view = { held };

    ghost invariant = { Represents };
}

/// Takes the memory for an entry, an activity that it begins, and the ends of those.
fn ready_entries(entries: &mut Vec<JournalEntry>, works: usize) -> Result<(), NoMemory>
    ensures same { entries.new.items ≡ entries.old.items }
    ensures more { vec_capacity entries.old ≤ vec_capacity entries.new }
    ensures room { OnOk result (vec_len entries.new + works + 2 ≤ vec_capacity entries.new) }
{
    let Some(more) = works.checked_add(2) else {
        return Err(AllocError);
    };
    entries.reserve(more)
}

impl Core {
    /// The core of an empty journal, over what an opening found.
    pub fn new(alloc: Global, opening: Opening, found: Found) -> Result<Core, NoMemory>
        requires { HasFound opening found }
        ensures opening { IfOk result (λ core. core.opening ≡ opening) }
        ensures entries { IfOk result (λ core. core.entries ≡ []) }
        ensures prepared { IfOk result (λ core. core.prepared ≡ None) }
    {
        let state = CoreState::found(alloc, found)?;
        Ok(Core {
            alloc,
            opening,
            entries: Vec::new(alloc),
            prepared: no_step(),
            ready: Change::nothing(alloc),
            state,
        })
    }

    /// The state.
    pub fn state(&self) -> &CoreState
        ensures { IsReplay result.now (state_of self.now) }
    {
        &self.state
    }

    /// The journal, whose opening and entries are the core's.
    pub fn into_journal(self) -> Journal
        ensures opening { result.opening ≡ self.opening }
        ensures entries { result.entries ≡ self.entries }
    {
        Journal {
            opening: self.opening,
            entries: Items::from_vec(self.entries),
        }
    }

    /// What the journal began with.
    pub fn opening(&self) -> &Opening
        ensures { result.now ≡ self.now.opening }
    {
        &self.opening
    }

    /// The entries of the journal.
    pub fn entries(&self) -> &[JournalEntry]
        ensures { result.now ≡ self.now.entries }
    {
        self.entries.as_slice()
    }

    /// How many file names and region ids were drawn since the opening, and how many actors have begun.
    pub fn counts(&self) -> Counts
        ensures files { result.files ≡ (parts_of self.now).files }
        ensures ids { result.ids ≡ (parts_of self.now).ids }
        ensures begun { result.begun ≡ (parts_of self.now).begun }
    {
        self.state.counts
    }

    /// The number of the entry at which the store closed.
    pub fn closed(&self) -> Option<u32>
        ensures { result ≡ (state_of self.now).closed }
    {
        self.state.closed
    }

    /// How many entries the journal has.
    pub fn len(&self) -> usize
        ensures { result ≡ length self.now.entries }
    {
        self.entries.len()
    }

    /// The activities at work, the earliest first.
    pub fn works(&self) -> &[AtWork]
        ensures live { map live_in result.now ≡ (parts_of self.now).plain.live }
        ensures each { AllByRecursion (IsWork (parts_of self.now).begun (parts_of self.now).owners (parts_of self.now).plans) result.now }
    {
        self.state.works.as_slice()
    }

    /// The activity of an actor, where it is at work.
    pub fn work(&self, actor: Actor) -> Option<&AtWork>
        ensures live { option_map live_in (option_copied result) ≡ live_of (parts_of self.now).plain.live actor.0 }
        ensures work { IfSome (option_copied result) (IsWork (parts_of self.now).begun (parts_of self.now).owners (parts_of self.now).plans) }
    {
        work_of(self.works(), actor)
    }

    /// Whether an actor is at work.
    pub fn alive(&self, actor: Actor) -> bool
        ensures { result ≡ is_some (live_of (parts_of self.now).plain.live actor.0) }
    {
        self.work(actor).is_some()
    }

    /// Who wrote a temporary file that stands, and of what.
    pub fn written(&self, name: &FileName) -> Option<&WrittenFile>
        ensures { option_copied result ≡ recorded ((parts_of self.now).disk (Tmp name.now)) ((parts_of self.now).written name.now) }
    {
        self.state.written.get(name)
    }

    /// Whether a file stands at a place of the layout.
    pub fn stands(&self, place: &Place) -> bool
        ensures { (q : Site) → is_regular q ≡ true → site_text q ≡ place.now → result ≡ is_some ((parts_of self.now).disk q) }
    {
        self.state.places.contains_key(place)
    }

    /// Whether a file stands below one of a region's directories, under the data or in the archive.
    pub fn stands_below(&self, region: &RegionKey) -> Result<bool, NoMemory>
        ensures { IfOk result (λ stands. (stands ≡ true) ↔ StandsBelow (parts_of self.now).disk region.now) }
    {
        core_places::stands_below(self.alloc, &self.state.places, region)
    }

    /// Whether the name of a region was drawn.
    pub fn is_drawn(&self, region: &RegionKey) -> bool
        ensures { (result ≡ true) ↔ Member region.now (parts_of self.now).drawn }
    {
        self.state.drawn.contains_key(region)
    }

    /// The newest region set of a table, of dropped tables too.
    pub fn set(&self, table: &TableName) -> Option<&RegionSet>
        ensures { option_copied result ≡ maps.get (parts_of self.now).sets table.now }
    {
        self.state.sets.get(table)
    }

    /// The number of a table's newest region set: 0 where it has none.
    pub fn set_number(&self, table: &TableName) -> u64
        ensures { result ≡ set_number (maps.get (parts_of self.now).sets table.now) }
    {
        number_of(&self.state.sets, table)
    }

    /// Whether a snapshot is complete.
    pub fn has_snapshot(&self, name: &SnapName) -> bool
        ensures { result ≡ maps.contains_key (parts_of self.now).snapshots name.now }
    {
        self.state.snapshots.contains_key(name)
    }

    /// The names of the complete snapshots, in order.
    pub fn snapshot_names(&self) -> Result<Items<SnapName>, NoMemory>
        ensures { IfOk result (λ names. names ≡ maps.keys (parts_of self.now).snapshots) }
    {
        self.state.snapshots.keys(self.alloc)
    }

    /// Takes all the memory that an entry with this step needs. `begun`: what a start has beside its step.
    pub fn prepare(&mut self, step: &Step, begun: Option<Begun>) -> Result<(), NoMemory>
        requires served { IsServed step.now }
        requires begun { GivesBegun step.now begun }
        ensures ok { OnOk result (self.new.prepared ≡ Some step.now) }
        ensures err { OnErr result (self.new.prepared ≡ None) }
        ensures opening { self.new.opening ≡ self.old.opening }
        ensures entries { self.new.entries ≡ self.old.entries }
    {
        self.prepared = no_step();
        let ready = Change::of_step(self.alloc, step, begun)?;
        drop(replace(&mut self.ready, ready));
        self.state.reserve(&self.ready)?;
        ready_entries(&mut self.entries, self.state.works.len())?;
        self.prepared = step_of(step);
        Ok(())
    }

    /// Adds an entry that is allowed, whose step was prepared; the ends of activities need not be. It takes no memory.
    pub fn apply(&mut self, entry: JournalEntry)
        requires served { IsServed entry.step }
        requires prepared { NeedsReady entry.step (self.old.prepared ≡ Some entry.step) }
        requires allowed { AllowsEntry (length self.old.entries) entry (state_of self.old) }
        ensures entries { self.new.entries ≡ self.old.entries ++ entry ∷ [] }
        ensures opening { self.new.opening ≡ self.old.opening }
        ensures prepared { self.new.prepared ≡ None }
    {
        let ready = replace(&mut self.ready, Change::nothing(self.alloc));
        let change = Change::of_entry(self.alloc, &entry, ready);
        let number = self.entries.len() as u32;
        self.state.enter(self.alloc, number, entry.failed, change);
        self.entries.push_reserved(entry);
        self.prepared = no_step();
    }
}
