//! The activities at work, and what they keep of regions.

ghost use Rattle.std.specs.Prelude.{◌≡◌, ◌∷◌, ◌++◌, [], IfOk, option_copied};
ghost use Rattle.plain_model.specs.LiveEvents.{live_on, live_of, without};
ghost use Rattle.plain_events.specs.Parts.{by_actor, without_actor};

use hb_wire::{Copied, Items, NoMemory};
use plain_cells::lists::joined;
use plain_model::{Actor, Event, Live, RegionKey};
use std::alloc::Global;

/// What each activity keeps of a region, the last that was set first.
pub type Kept<T> = Items<(Actor, RegionKey, Option<T>)>;

/// What an activity keeps of a region.
pub(crate) fn kept_by<'a, T>(
    entries: &'a [(Actor, RegionKey, Option<T>)],
    actor: Actor,
    key: &RegionKey,
) -> Option<&'a T>
    ensures { option_copied result ≡ by_actor entries.now actor.0 key.now }
{
    for entry in entries {
        if actor == entry.0 && *key == entry.1 {
            return entry.2.as_ref();
        }
    }
    None
}

/// What the activities keep, with one more value in front.
pub(crate) fn keeping<T: Copied>(
    alloc: Global,
    actor: Actor,
    key: &RegionKey,
    value: Option<T>,
    entries: &Kept<T>,
) -> Result<Kept<T>, NoMemory>
    ensures { IfOk result (λ all. all ≡ (actor, key.now, value) ∷ entries.now) }
{
    let mut first = Vec::new(alloc);
    first.push((actor, key.copy()?, value))?;
    joined(Items::from_vec(first), entries.as_slice())
}

/// What the other activities keep.
pub(crate) fn without_actor<T: Copied>(
    alloc: Global,
    actor: Actor,
    entries: &Kept<T>,
) -> Result<Kept<T>, NoMemory>
    ensures { IfOk result (λ some. some ≡ without_actor actor entries.now) }
{
    let mut some = Vec::new(alloc);
    for entry in entries.as_slice() {
        if !(entry.0 == actor) {
            some.push(entry.copy()?)?;
        }
    }
    Ok(Items::from_vec(some))
}

/// The activity of a number.
pub(crate) fn live_of(live: &[Live], actor: Actor) -> Option<&Live>
    ensures { option_copied result ≡ live_of live.now actor.0 }
{
    for one in live {
        if one.actor == actor {
            return Some(one);
        }
    }
    None
}

/// The other activities.
fn without(alloc: Global, actor: Actor, live: &[Live]) -> Result<Items<Live>, NoMemory>
    ensures { IfOk result (λ some. some ≡ without actor.0 live.now) }
{
    let mut some = Vec::new(alloc);
    for one in live {
        if !(one.actor == actor) {
            some.push(one.copy()?)?;
        }
    }
    Ok(Items::from_vec(some))
}

/// The activities with one more.
fn with_live(live: &Items<Live>, one: Live) -> Result<Items<Live>, NoMemory>
    ensures { IfOk result (λ all. all ≡ live.now ++ one ∷ []) }
{
    let mut all = live.copy()?.into_vec();
    all.push(one)?;
    Ok(Items::from_vec(all))
}

/// The activities after an event.
pub(crate) fn live_after(
    alloc: Global,
    live: &Items<Live>,
    event: &Event,
) -> Result<Items<Live>, NoMemory>
    ensures { IfOk result (λ next. next ≡ live_on event.now live.now) }
{
    match event {
        Event::At {
            actor,
            job: Some(job),
            holds,
        } => {
            let one = Live {
                actor: *actor,
                job: job.copy()?,
                holds: holds.copy()?,
            };
            with_live(live, one)
        }
        Event::At {
            actor,
            job: None,
            ..
        } => without(alloc, *actor, live.as_slice()),
        Event::Stop => Ok(Items::new(alloc)),
        _ => live.copy(),
    }
}
