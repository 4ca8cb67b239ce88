//! Activities at work.

ghost use Rattle.std.specs.Prelude.{◌≡◌, ◌<◌, map, vec_len, vec_capacity, IfOk, option_copied};
ghost use Rattle.std.specs.List.{filter};
ghost use Rattle.world_state.specs.Changes.{begins, work_change};
ghost use Rattle.world_state.specs.Parts.{freed, is_not, work_of, works_with};
ghost use Rattle.world_state.specs.Rooms.{GivesBegun, GivesLive, OnBegin};

use core_model::{Drawn, Plan, Started, Step};
use hb_wire::{Copied, Items, NoMemory};
use plain_model::{Actor, Hold, Job, Live, Who};
use std::alloc::Global;

/// An activity with its holds, the worker that began it, and what it builds.
#[derive(Debug, Drop)]
pub struct AtWork {
    pub live: Live,
    pub worker: u32,
    pub plan: Plan,
}

/// What a start that begins an activity hands over beside its step, where it stands for contracts alone.
#[derive(Drop)]
pub struct Begun {
    pub holds: Items<Hold>,
    pub plan: Plan,
}

/// What a step changes of the activities.
#[derive(Drop)]
pub enum WorkChange {
    Same,
    Begins(AtWork),
    /// The activity has built what it planned.
    Frees(Actor),
    Ends(Actor),
}

/// What a step changes of the activities. `begun`: what a start has beside its step.
pub(crate) fn work_change(step: &Step, begun: Option<Begun>) -> Result<WorkChange, NoMemory>
    requires { GivesBegun step.now begun }
    ensures { IfOk result (λ change. change ≡ work_change step.now) }
{
    match step {
        Step::Start {
            who,
            job,
            started,
            drawn,
        } => begins(who, job, started, drawn, begun),
        Step::CommitRegions { actor, .. } => Ok(WorkChange::Frees(*actor)),
        Step::End { actor, .. } => Ok(WorkChange::Ends(*actor)),
        Step::Abandon { actor } => Ok(WorkChange::Ends(*actor)),
        _ => Ok(WorkChange::Same),
    }
}

/// What a start begins. `drawn`: read by the contract alone.
fn begins(
    who: &Who,
    job: &Job,
    started: &Started,
    drawn: &Drawn,
    begun: Option<Begun>,
) -> Result<WorkChange, NoMemory>
    requires { GivesLive started.now drawn.now begun }
    ensures { IfOk result (λ change. change ≡ begins who.now job.now started.now drawn.now) }
{
    let _ = drawn;
    match (started, begun) {
        (Started::Live(actor), Some(begun)) => Ok(WorkChange::Begins(AtWork {
            live: Live {
                actor: *actor,
                job: job.copy()?,
                holds: begun.holds,
            },
            worker: who.worker,
            plan: begun.plan,
        })),
        _ => Ok(WorkChange::Same),
    }
}

/// The activity of a number.
pub(crate) fn work_of(works: &[AtWork], actor: Actor) -> Option<&AtWork>
    ensures { option_copied result ≡ work_of works.now actor.0 }
{
    for work in works {
        if work.live.actor == actor {
            return Some(work);
        }
    }
    None
}

/// Takes no memory.
pub(crate) fn works_after(alloc: Global, works: &mut Vec<AtWork>, change: WorkChange)
    requires { OnBegin change (vec_len works.old < vec_capacity works.old) }
    ensures { works.new.items ≡ works_with change works.old.items }
{
    match change {
        WorkChange::Same => (),
        WorkChange::Begins(work) => works.push_reserved(work),
        WorkChange::Frees(actor) => free_plan(alloc, works, actor),
        WorkChange::Ends(actor) => end_work(works, actor),
    }
}

/// Takes an activity out.
fn end_work(works: &mut Vec<AtWork>, actor: Actor)
    ensures { works.new.items ≡ filter (is_not actor.0) works.old.items }
{
    works.retain(|work| work.live.actor != actor);
}

/// Frees the plan of an activity.
fn free_plan(alloc: Global, works: &mut Vec<AtWork>, actor: Actor)
    ensures { works.new.items ≡ map (freed actor.0) works.old.items }
{
    for work in works.iter_mut() {
        free(alloc, work, actor);
    }
}

fn free(alloc: Global, work: &mut AtWork, actor: Actor)
    ensures { work.new ≡ freed actor.0 work.old }
{
    if work.live.actor == actor {
        work.plan = Plan {
            regions: Items::new(alloc),
            entries: Items::new(alloc),
        };
    }
}
