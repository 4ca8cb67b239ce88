//! A store, a clock and a core.

ghost use Rattle.std.specs.Prelude.{◌≡◌, ◌≤◌, [], ◌∷◌, ◌++◌, true, false, Bool, Some, None, IsSome, IfErr, IfOk, OnErr, OnOk, length};
ghost use Rattle.core_bytes.specs.Written.{Writes};
ghost use Rattle.core_model.specs.Actors.{IsLive};
ghost use Rattle.core_model.specs.Allows.{AllowsEntry, IsWriting};
ghost use Rattle.core_model.specs.Disk.{Nothing};
ghost use Rattle.core_model.specs.Ops.{op_of};
ghost use Rattle.core_places.specs.Served.{IsServed};
ghost use Rattle.core_trees.specs.Trees.{HasNames};
ghost use Rattle.world_state.specs.Changes.{ending};
ghost use Rattle.world_state.specs.Opened.{HasFound};
ghost use Rattle.world_state.specs.Rooms.{GivesBegun};
ghost use Rattle.world_steps.specs.Causes.{Adds, IsShut, Keeps, StopsWrite, TakesEntry};
ghost use Rattle.world_steps.specs.World.{IsOpened, IsWorld, entry_of, seen, state_at};
ghost use Rattle.world_steps.specs.Writing.{HasBytes};

use crate::refusal::Cause;
use crate::writing::{Unmade, damage, kind_of, make, ready};
use core_model::{Found, JOURNAL_LIMIT, Journal, JournalEntry, Opening, Step};
use hb_causes::Clock;
use hb_wire::NoMemory;
use ns_tree::Namespace;
use plain_model::Actor;
use std::alloc::Global;
use std::marker::Model;
use world_state::{Begun, Core};

/// A store, a clock, and what was done with them since an opening. Its type keeps that each entry of the journal was
/// allowed in the state before it, and that what the store tells is one of the journal's trees.
#[derive(Drop)]
pub struct World<N: Namespace, C: Clock> {
    pub(crate) alloc: Global,
    ns: N,
    pub(crate) clock: C,
    core: Core,
}

impl<N: Namespace, C: Clock> Model for World<N, C> {
    ghost use Rattle.std.specs.Coded.{codes};
    ghost use Rattle.ns_tree.specs.Coded.{tree_code};
    ghost use Rattle.world_steps.specs.World.{Journaled, IsWorld};

    ghost Value = { Journaled N C };

    ghost coded = { Prim.hlevel (codes, tree_code, N.code, C.code) };

    ghost view = { λ w. record { ns = w.ns; clock = w.clock; opening = w.core.opening; entries = w.core.entries } };

    ghost invariant = { λ w. IsWorld (N.told w.ns) w.core.opening w.core.entries };
}

impl<N: Namespace, C: Clock> World<N, C> {
    /// The world of a store that was opened, with an empty journal. Without memory for it the store and the clock are
    /// handed back.
    pub fn begin(
        alloc: Global,
        ns: N,
        clock: C,
        opening: Opening,
        found: Found,
    ) -> Result<World<N, C>, (N, C, NoMemory)>
        requires found { HasFound opening found }
        requires opened { IsOpened opening }
        requires told { opening.tree ≡ N.told ns }
        ensures ok { IfOk result (λ w. w ≡ record { ns = ns; clock = clock; opening = opening; entries = [] }) }
        ensures err { IfErr result (λ e. (e.0 ≡ ns) × (e.1 ≡ clock)) }
    {
        match Core::new(alloc, opening, found) {
            Ok(core) => Ok(World {
                alloc,
                ns,
                clock,
                core,
            }),
            Err(error) => Err((ns, clock, error)),
        }
    }

    /// What the entries made of the state.
    pub fn core(&self) -> &Core
        ensures opening { result.now.opening ≡ self.now.opening }
        ensures entries { result.now.entries ≡ self.now.entries }
    {
        &self.core
    }

    /// What holds of the journal, and of what the store tells.
    pub fn holds(&self)
        ensures { IsWorld (N.told self.now.ns) self.now.opening self.now.entries }
    {
        let _ = &self.core;
    }

    /// The store, the clock and the journal. It makes no entry and no call of the store.
    pub fn into_parts(self) -> (N, C, Journal)
        ensures ns { result.0 ≡ self.ns }
        ensures clock { result.1 ≡ self.clock }
        ensures opening { result.2.opening ≡ self.opening }
        ensures entries { result.2.entries ≡ self.entries }
        ensures holds { IsWorld (N.told self.ns) self.opening self.entries }
    {
        self.holds();
        let Self {
            alloc: _,
            ns,
            clock,
            core,
        } = self;
        (ns, clock, core.into_journal())
    }

    /// Whether an entry can be made that begins so many activities.
    pub(crate) fn takes_entry(&self, starts: usize) -> Result<(), Cause>
        ensures ok { OnOk result (TakesEntry starts (seen N.told N.faults self.now)) }
        ensures err { IfErr result (IsShut starts (seen N.told N.faults self.now)) }
    {
        if let Some(entry) = self.core.closed() {
            return Err(Cause::Closed(entry));
        }
        let live = self.core.works().len().saturating_add(starts);
        if self.core.len().saturating_add(live) < JOURNAL_LIMIT as usize {
            return Ok(());
        }
        Err(Cause::JournalFull)
    }

    /// The worker of a live actor.
    pub(crate) fn worker_of(&self, actor: Actor) -> u32
        requires { IsLive (state_at self.now).now.plain.live actor.0 }
        ensures { (state_at self.now).now.owners actor.0 ≡ Some result }
    {
        match self.core.work(actor) {
            Some(work) => work.worker,
            None => unreachable!(),
        }
    }

    /// Makes an entry of a step that changes no file.
    pub(crate) fn note(
        &mut self,
        worker: u32,
        step: Step,
        begun: Option<Begun>,
    ) -> Result<(), NoMemory>
        requires served { IsServed step }
        requires begun { GivesBegun step begun }
        requires allowed { AllowsEntry (length self.old.entries) (entry_of worker step false) (state_at self.old) }
        requires names { HasNames step }
        requires writes { Writes step (state_at self.old).now }
        requires silent { op_of step ≡ Nothing }
        ensures ok { OnOk result (Adds worker step false (seen N.told N.faults self.old) (seen N.told N.faults self.new)) }
        ensures err { OnErr result (Keeps (seen N.told N.faults self.old) (seen N.told N.faults self.new)) }
        ensures ns { self.new.ns ≡ self.old.ns }
        ensures clock { self.new.clock ≡ self.old.clock }
    {
        if let Err(error) = self.core.prepare(&step, begun) {
            drop(step);
            return Err(error);
        }
        self.core.apply(JournalEntry {
            worker,
            step,
            failed: false,
        });
        Ok(())
    }

    /// Makes the entry that ends an activity. It takes no memory.
    pub(crate) fn finish(&mut self, worker: u32, step: Step)
        requires served { IsServed step }
        requires ends { IsSome (ending step) }
        requires allowed { AllowsEntry (length self.old.entries) (entry_of worker step false) (state_at self.old) }
        requires names { HasNames step }
        requires writes { Writes step (state_at self.old).now }
        requires silent { op_of step ≡ Nothing }
        ensures adds { Adds worker step false (seen N.told N.faults self.old) (seen N.told N.faults self.new) }
        ensures ns { self.new.ns ≡ self.old.ns }
        ensures clock { self.new.clock ≡ self.old.clock }
    {
        self.core.apply(JournalEntry {
            worker,
            step,
            failed: false,
        });
    }

    /// Makes an entry of a step that changes a file. `bytes`: those of a file that it makes.
    pub(crate) fn write(&mut self, worker: u32, step: Step, bytes: &[u8]) -> Result<(), Cause>
        requires served { IsServed step }
        requires writing { IsWriting step }
        requires lasting { ending step ≡ None }
        requires begins { GivesBegun step None }
        requires bytes { HasBytes (op_of step) bytes.now }
        requires takes { TakesEntry 0 (seen N.told N.faults self.old) }
        requires allowed { (failed : Bool) → AllowsEntry (length self.old.entries) (entry_of worker step failed) (state_at self.old) }
        requires names { HasNames step }
        requires writes { Writes step (state_at self.old).now }
        ensures ok { OnOk result (Adds worker step false (seen N.told N.faults self.old) (seen N.told N.faults self.new)) }
        ensures err { IfErr result (StopsWrite worker step (seen N.told N.faults self.old) (seen N.told N.faults self.new)) }
        ensures clock { self.new.clock ≡ self.old.clock }
        ensures later { N.faults self.old.ns ≤ N.faults self.new.ns }
    {
        let change = match ready(self.alloc, &mut self.core, &step) {
            Ok(change) => change,
            Err(error) => {
                drop(step);
                return Err(error.into());
            }
        };
        match make(&mut self.ns, &change, bytes) {
            Ok(()) => {
                self.core.apply(JournalEntry {
                    worker,
                    step,
                    failed: false,
                });
                Ok(())
            }
            Err(error) => match kind_of(error) {
                Unmade::Failed => {
                    self.core.apply(JournalEntry {
                        worker,
                        step,
                        failed: true,
                    });
                    Err(Cause::NsFault)
                }
                Unmade::NoMemory => Err(Cause::NoMemory),
                Unmade::Wrong => Err(damage(change, error)),
            },
        }
    }
}
