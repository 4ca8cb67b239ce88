//! The starts of activities.

ghost use Rattle.std.specs.Prelude.{◌≡◌, ◌+◌, [], false, None, IfErr, IfOk, OnErr, OnOk};
ghost use Rattle.core_model.specs.Plans.{region_id};
ghost use Rattle.core_model.specs.StartGuards.{CanStart, IsWithinLimits, regions_for};
ghost use Rattle.core_model.specs.declared.step.Started.TheVariants as started;
ghost use Rattle.plain_model.specs.Found.{is_table};
ghost use Rattle.plain_model.specs.Held.{held_by};
ghost use Rattle.plain_model.specs.Holds.{holds_of};
ghost use Rattle.plain_model.specs.Replies.{first};
ghost use Rattle.world_steps.specs.Causes.{Adds, Keeps, TakesEntry};
ghost use Rattle.world_steps.specs.Starts.{IsInTheWay, IsJudged, IsServedJob, RefusesStart, drawn_by, next_actor, refusals_of_create, start_step};
ghost use Rattle.world_steps.specs.World.{seen, state_at};

use crate::asked::{held_by, holds_of};
use crate::ghosts::{as_seen, no_plan, nothing_staged};
use crate::refusal::Refusal;
use crate::regions::split_regions;
use crate::world::World;
use core_model::{Drawn, Plan, Started, Step};
use hb_causes::Clock;
use hb_names::{FamilyName, TableName};
use hb_records::RegionInfo;
use hb_wire::{Blob, Copied, Items, NoMemory};
use ns_tree::Namespace;
use plain_model::{Actor, Hold, Job, Reply, Who};
use plain_tables::new_tables::{are_splits, repeated};
use std::alloc::AllocError;
use world_state::Begun;

impl<N: Namespace, C: Clock> World<N, C> {
    /// Starts a job. Where no live actor has a hold in the way of its holds, it is answered: refused, or with the actor that
    /// is at work on it from here on. A region's id has the opening's epoch, and counts up.
    pub fn start(&mut self, who: Who, job: &Job) -> Result<Started, Refusal>
        requires served { IsServedJob job.now }
        requires limits { IsWithinLimits job.now }
        ensures ok { IfOk result (λ answer. Adds who.worker (start_step who job.now answer (state_at self.old).now) false (seen N.told N.faults self.old) (seen N.told N.faults self.new)) }
        ensures answered { IfOk result (λ answer. CanStart job.now answer (drawn_by job.now answer (state_at self.old).now) (state_at self.old).now) }
        ensures takes { OnOk result (TakesEntry 1 (seen N.told N.faults self.old)) }
        ensures err { IfErr result (RefusesStart job.now (seen N.told N.faults self.old) (seen N.told N.faults self.new)) }
        ensures ns { self.new.ns ≡ self.old.ns }
        ensures clock { self.new.clock ≡ self.old.clock }
    {
        self.takes_entry(1)?;
        let holds = self.free_holds(job)?;
        let regions = self.new_regions(job)?;
        match self.refusal_of(job, regions.as_slice())? {
            Some(reply) => Ok(self.refuse(who, job, &holds, reply)?),
            None => Ok(self.begin_job(who, job, holds, regions)?),
        }
    }

    /// The holds of a job, where no live actor is in their way.
    fn free_holds(&self, job: &Job) -> Result<Items<Hold>, Refusal>
        requires { IsServedJob job.now }
        ensures ok { IfOk result (λ holds. holds ≡ holds_of [] (state_at self.now).now.plain job.now) }
        ensures free { OnOk result (held_by (state_at self.now).now.plain.live (holds_of [] (state_at self.now).now.plain job.now) ≡ None) }
        ensures err { IfErr result (IsInTheWay job.now (seen N.told N.faults self.now)) }
    {
        let holds = holds_of(self.alloc, job)?;
        match held_by(holds.as_slice(), self.core().works())? {
            Some((by, hold)) => Err(Refusal::Held { by, hold }),
            None => Ok(holds),
        }
    }

    /// The id of the region that is drawn next.
    fn next_id(&self) -> Result<u64, NoMemory>
        ensures { IfOk result (λ id. id ≡ region_id (state_at self.now).now.epoch ((state_at self.now).now.ids + 1)) }
    {
        let before = u64::from(self.core().opening().epoch) * 4_294_967_296;
        let Some(count) = self.core().counts().ids.checked_add(1) else {
            return Err(AllocError);
        };
        match before.checked_add(count) {
            Some(id) => Ok(id),
            None => Err(AllocError),
        }
    }

    /// The regions that a job makes.
    fn new_regions(&self, job: &Job) -> Result<Items<RegionInfo>, NoMemory>
        requires { IsServedJob job.now }
        ensures { IfOk result (λ regions. regions ≡ regions_for job.now (state_at self.now).now) }
    {
        match job {
            Job::Create { table, splits, .. } => {
                split_regions(self.alloc, table, splits.as_slice(), self.next_id()?)
            }
            _ => Ok(Items::new(self.alloc)),
        }
    }

    /// Why a job is refused, where it is. `regions`: those that it would make.
    fn refusal_of(&self, job: &Job, regions: &[RegionInfo]) -> Result<Option<Reply>, NoMemory>
        requires served { IsServedJob job.now }
        requires regions { regions.now ≡ regions_for job.now (state_at self.now).now }
        ensures { IfOk result (λ refusal. IsJudged job.now refusal (state_at self.now).now) }
    {
        match job {
            Job::Create {
                table,
                families,
                splits,
                ..
            } => {
                let taken = self.is_name_taken(table, regions)?;
                self.refusal_of_create(table, families.as_slice(), splits.as_slice(), taken)
            }
            _ => Ok(None),
        }
    }

    /// Why a table is not created, where it isn't. `taken`: whether an encoded name of its regions is.
    fn refusal_of_create(
        &self,
        table: &TableName,
        families: &[FamilyName],
        splits: &[Blob],
        taken: bool,
    ) -> Result<Option<Reply>, NoMemory>
        ensures { IfOk result (λ refusal. refusal ≡ first (refusals_of_create (is_table (state_at self.now).now.plain table.now) families.now splits.now taken)) }
    {
        if self.has_table(table) {
            return Ok(Some(Reply::TableExists));
        }
        if let Some(family) = repeated(families) {
            return Ok(Some(Reply::DuplicateFamily(family.copy()?)));
        }
        if !are_splits(self.alloc, splits)? {
            return Ok(Some(Reply::BadSplitKey));
        }
        Ok(if taken { Some(Reply::NameTaken) } else { None })
    }

    /// Makes the entry of a job that is refused.
    fn refuse(
        &mut self,
        who: Who,
        job: &Job,
        holds: &Items<Hold>,
        reply: Reply,
    ) -> Result<Started, NoMemory>
        requires served { IsServedJob job.now }
        requires takes { TakesEntry 1 (seen N.told N.faults self.old) }
        requires holds { holds.now ≡ holds_of [] (state_at self.old).now.plain job.now }
        requires can { CanStart job.now (started.Refused reply) (drawn_by job.now (started.Refused reply) (state_at self.old).now) (state_at self.old).now }
        ensures answer { IfOk result (λ answer. answer ≡ started.Refused reply) }
        ensures ok { OnOk result (Adds who.worker (start_step who job.now (started.Refused reply) (state_at self.old).now) false (seen N.told N.faults self.old) (seen N.told N.faults self.new)) }
        ensures err { OnErr result (Keeps (seen N.told N.faults self.old) (seen N.told N.faults self.new)) }
        ensures ns { self.new.ns ≡ self.old.ns }
        ensures clock { self.new.clock ≡ self.old.clock }
    {
        let answer = reply.copy()?;
        let step = Step::Start {
            who,
            job: job.copy()?,
            started: Started::Refused(reply),
            drawn: Drawn {
                regions: Items::new(self.alloc),
                moment: None,
                holds: as_seen(holds),
                plan: no_plan(),
                staged: nothing_staged(),
            },
        };
        self.note(who.worker, step, None)?;
        Ok(Started::Refused(answer))
    }

    /// Makes the entry of a job that begins an activity.
    fn begin_job(
        &mut self,
        who: Who,
        job: &Job,
        holds: Items<Hold>,
        regions: Items<RegionInfo>,
    ) -> Result<Started, NoMemory>
        requires served { IsServedJob job.now }
        requires takes { TakesEntry 1 (seen N.told N.faults self.old) }
        requires holds { holds ≡ holds_of [] (state_at self.old).now.plain job.now }
        requires regions { regions ≡ regions_for job.now (state_at self.old).now }
        requires can { CanStart job.now (next_actor (state_at self.old).now) (drawn_by job.now (next_actor (state_at self.old).now) (state_at self.old).now) (state_at self.old).now }
        ensures answer { IfOk result (λ answer. answer ≡ next_actor (state_at self.old).now) }
        ensures ok { OnOk result (Adds who.worker (start_step who job.now (next_actor (state_at self.old).now) (state_at self.old).now) false (seen N.told N.faults self.old) (seen N.told N.faults self.new)) }
        ensures err { OnErr result (Keeps (seen N.told N.faults self.old) (seen N.told N.faults self.new)) }
        ensures ns { self.new.ns ≡ self.old.ns }
        ensures clock { self.new.clock ≡ self.old.clock }
    {
        let actor = Actor(self.core().counts().begun);
        let plan = Plan {
            regions: regions.copy()?,
            entries: Items::new(self.alloc),
        };
        let step = Step::Start {
            who,
            job: job.copy()?,
            started: Started::Live(actor),
            drawn: Drawn {
                regions,
                moment: None,
                holds: as_seen(&holds),
                plan: as_seen(&plan),
                staged: nothing_staged(),
            },
        };
        self.note(who.worker, step, Some(Begun { holds, plan }))?;
        Ok(Started::Live(actor))
    }
}
