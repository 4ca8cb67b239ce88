//! Who is in the way of a start.

ghost use Rattle.std.specs.Prelude.{◌≡◌, [], Some, IfOk, find, map, option_copied, option_map};
ghost use Rattle.std.specs.List.{list_any};
ghost use Rattle.plain_model.specs.Held.{blocks_any, held_by, least};
ghost use Rattle.plain_model.specs.declared.parts.Live.{Live};
ghost use Rattle.world_state.specs.Works.{live_in};
ghost use Rattle.plain_model.specs.Holds.{holds_of};
ghost use Rattle.plain_model.specs.Plain.{Plain};
ghost use Rattle.world_steps.specs.Starts.{IsServedJob, lesser_of};

use hb_wire::{Copied, Items, NoMemory};
use plain_model::{Actor, Hold, Job};
use std::alloc::Global;
use world_state::AtWork;

/// The holds of a job.
pub(crate) fn holds_of(alloc: Global, job: &Job) -> Result<Items<Hold>, NoMemory>
    requires { IsServedJob job.now }
    ensures { IfOk result (λ holds. (p : Plain) → holds ≡ holds_of [] p job.now) }
{
    let mut holds = Vec::new(alloc);
    if let Job::Create { table, .. } = job {
        holds.push(Hold::Table(table.copy()?))?;
    }
    Ok(Items::from_vec(holds))
}

/// Whether a hold is in the way of one that is asked for.
fn blocks_any(asked: &[Hold], held: &Hold) -> bool
    ensures { result ≡ blocks_any asked.now held.now }
{
    for hold in asked {
        if hold.blocks(held) {
            return true;
        }
    }
    false
}

/// The first of some holds that is in the way.
fn first_blocker<'a>(asked: &[Hold], held: &'a [Hold]) -> Option<&'a Hold>
    ensures { option_copied result ≡ find (blocks_any asked.now) held.now }
{
    for hold in held {
        if blocks_any(asked, hold) {
            return Some(hold);
        }
    }
    None
}

/// Whether one of some holds is in the way.
fn has_blocker(asked: &[Hold], held: &[Hold]) -> bool
    ensures { result ≡ list_any (blocks_any asked.now) held.now }
{
    for hold in held {
        if blocks_any(asked, hold) {
            return true;
        }
    }
    false
}

/// The activity of the lesser number.
fn lesser<'a>(work: &'a AtWork, least: Option<&'a AtWork>) -> &'a AtWork
    ensures { Some (live_in result.now) ≡ lesser_of (option_map live_in (option_copied least.entry)) (Some (live_in work.now)) }
{
    match least {
        Some(least) if least.live.actor.0 <= work.live.actor.0 => least,
        _ => work,
    }
}

/// The activity of the least number that has a hold in the way.
fn least_blocker<'a>(asked: &[Hold], works: &'a [AtWork]) -> Option<&'a AtWork>
    ensures { option_map live_in (option_copied result) ≡ least (λ (l : Live). list_any (blocks_any asked.now) l.holds) (map live_in works.now) }
{
    let mut least = None;
    for work in works {
        if has_blocker(asked, work.live.holds.as_slice()) {
            least = Some(lesser(work, least));
        }
    }
    least
}

/// The least actor that has a hold in the way of those that are asked for, and its first such hold.
pub(crate) fn held_by(asked: &[Hold], works: &[AtWork]) -> Result<Option<(Actor, Hold)>, NoMemory>
    ensures { IfOk result (λ held. held ≡ held_by (map live_in works.now) asked.now) }
{
    let Some(work) = least_blocker(asked, works) else {
        return Ok(None);
    };
    match first_blocker(asked, work.live.holds.as_slice()) {
        Some(hold) => Ok(Some((work.live.actor, hold.copy()?))),
        None => Ok(None),
    }
}
