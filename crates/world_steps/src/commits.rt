//! Commits of region sets.

ghost use Rattle.std.specs.Prelude.{◌≡◌, ◌≤◌, ◌<◌, false, IfErr, IfOk, OnOk};
ghost use Rattle.core_model.specs.Actors.{IsLive};
ghost use Rattle.core_model.specs.SetGuards.{CanCommitRegions};
ghost use Rattle.plain_model.specs.LiveEvents.{job_of};
ghost use Rattle.plain_model.specs.declared.put_cell.TheConstants.{MAX_NUMBER};
ghost use Rattle.world_steps.specs.Causes.{Adds, RefusesCommit, TakesEntry, number_of};
ghost use Rattle.world_steps.specs.Commits.{MayCommit, change_at, change_by, commit_step, set_at, set_in};
ghost use Rattle.world_steps.specs.World.{owner_in, seen, state_at};

use crate::refusal::{Cause, Counter, Refusal};
use crate::world::World;
use core_model::Step;
use hb_causes::Clock;
use hb_file_names::FileName;
use hb_ghost::{Ghost, Reads};
use hb_names::TableName;
use hb_wire::{Copied, NoMemory};
use ns_tree::Namespace;
use plain_model::{Actor, Event, MAX_NUMBER};
use region_set::RegionSet;
use world_state::{AtWork, WrittenFile};

struct SetOf;

impl Reads<WrittenFile, RegionSet> for SetOf {
    ghost reads = { λ file. set_in file.recipe };
}

/// The set that a file was written of.
fn set_of(file: &WrittenFile) -> Ghost<RegionSet>
    ensures { result ≡ set_in file.now.recipe }
{
    Ghost::<RegionSet>::of::<WrittenFile, SetOf>(file)
}

struct ChangeOf;

impl Reads<AtWork, Event> for ChangeOf {
    ghost reads = { λ work. change_by work.live.job work.plan };
}

/// The change that an activity makes.
fn change_of(work: &AtWork) -> Ghost<Event>
    ensures { result ≡ change_by work.now.live.job work.now.plan }
{
    Ghost::<Event>::of::<AtWork, ChangeOf>(work)
}

impl<N: Namespace, C: Clock> World<N, C> {
    /// Makes a written set a table's newest, as the change that the actor's job makes. `number`: that of the set that it
    /// replaces.
    pub fn commit_regions(
        &mut self,
        actor: Actor,
        table: &TableName,
        number: u64,
        set: &FileName,
    ) -> Result<(), Refusal>
        requires live { IsLive (state_at self.old).now.plain.live actor.0 }
        requires may { MayCommit actor.0 table.now number set.now (state_at self.old).now }
        ensures ok { OnOk result (Adds (owner_in (state_at self.old) actor.0) (commit_step actor table.now number set.now (state_at self.old).now) false (seen N.told N.faults self.old) (seen N.told N.faults self.new)) }
        ensures takes { OnOk result (TakesEntry 0 (seen N.told N.faults self.old)) }
        ensures number { OnOk result (number_of table.now (seen N.told N.faults self.old) ≡ number) }
        ensures unspent { OnOk result (number < MAX_NUMBER) }
        ensures err { IfErr result (RefusesCommit table.now number (owner_in (state_at self.old) actor.0) (commit_step actor table.now number set.now (state_at self.old).now) (seen N.told N.faults self.old) (seen N.told N.faults self.new)) }
        ensures clock { self.new.clock ≡ self.old.clock }
        ensures later { N.faults self.old.ns ≤ N.faults self.new.ns }
    {
        self.takes_entry(0)?;
        let newest = self.core().set_number(table);
        if newest != number {
            return Err(Refusal::Moved(newest));
        }
        if number >= MAX_NUMBER {
            return Err(Refusal::Stop(Cause::Spent(Counter::Set)));
        }
        let worker = self.worker_of(actor);
        let step = self.commit_step(actor, table, number, set)?;
        self.write(worker, step, &[])?;
        Ok(())
    }

    /// The step of a commit.
    fn commit_step(
        &self,
        actor: Actor,
        table: &TableName,
        number: u64,
        set: &FileName,
    ) -> Result<Step, NoMemory>
        requires live { IsLive (state_at self.now).now.plain.live actor.0 }
        requires can { CanCommitRegions actor.0 table.now number set.now (set_at ((state_at self.now).now.written set.now)) (change_at (job_of (state_at self.now).now.plain.live actor.0) ((state_at self.now).now.plans actor.0)) (state_at self.now).now }
        ensures { IfOk result (λ step. step ≡ commit_step actor table.now number set.now (state_at self.now).now) }
    {
        let (Some(file), Some(work)) = (self.core().written(set), self.core().work(actor)) else {
            unreachable!();
        };
        Ok(Step::CommitRegions {
            actor,
            table: table.copy()?,
            number,
            name: set.copy()?,
            set: set_of(file),
            change: change_of(work),
        })
    }
}
