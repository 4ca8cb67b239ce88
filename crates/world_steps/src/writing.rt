//! The calls of a store that change files.

ghost use Rattle.std.specs.Prelude.{◌≡◌, ◌≤◌, ◌⊎◌, None, Some, IfErr, IfOk, IsErrOf, OnOk};
ghost use Rattle.hb_causes.specs.Faults.{Rose};
ghost use Rattle.core_model.specs.Ops.{op_of};
ghost use Rattle.core_places.specs.Places.{gone_at, made_at, place_at};
ghost use Rattle.core_places.specs.Served.{IsServed};
ghost use Rattle.world_state.specs.Rooms.{GivesBegun};
ghost use Rattle.world_steps.specs.Writing.{IsAnswerAt, IsMade, IsUnmade, unmade_by, write_of};

use crate::refusal::{Cause, Damage};
use core_model::Step;
use core_places::{PlaceChange, change_of};
use hb_names::Place;
use hb_wire::NoMemory;
use ns_tree::{Namespace, NsError};
use std::alloc::Global;
use world_state::Core;

/// Makes the call that moves a file as a change of places says: a file is made with these bytes, moved, or deleted.
pub(crate) fn make<N: Namespace>(
    ns: &mut N,
    change: &PlaceChange,
    bytes: &[u8],
) -> Result<(), NsError>
    ensures done { OnOk result (IsMade (write_of change.now bytes.now) (N.told ns.old) (N.told ns.new)) }
    ensures unmade { IfErr result (λ e. IsUnmade (write_of change.now bytes.now) e (N.told ns.old) (N.told ns.new)) }
    ensures failed { IsErrOf result NsError.Failed → Rose (N.faults ns.old) (N.faults ns.new) }
    ensures later { N.faults ns.old ≤ N.faults ns.new }
{
    match (&change.gone, &change.made) {
        (None, None) => Ok(()),
        (None, Some(place)) => ns.create(place, bytes),
        (Some(place), None) => ns.delete(place),
        (Some(from), Some(to)) => ns.rename(from, to),
    }
}

/// Why a call of a store was not made.
#[derive(Clone, Copy, Debug)]
pub(crate) enum Unmade {
    Failed,
    NoMemory,
    /// The store answered against what it was told.
    Wrong,
}

pub(crate) fn kind_of(error: NsError) -> Unmade
    ensures { result ≡ unmade_by error }
{
    match error {
        NsError::Failed => Unmade::Failed,
        NsError::NoMemory => Unmade::NoMemory,
        NsError::Missing | NsError::Inside | NsError::Exists | NsError::BelowFile => Unmade::Wrong,
    }
}

/// Takes the memory for an entry of a step that changes a file, and tells between which places the file moves.
pub(crate) fn ready(alloc: Global, core: &mut Core, step: &Step) -> Result<PlaceChange, NoMemory>
    requires served { IsServed step.now }
    requires begins { GivesBegun step.now None }
    ensures prepared { OnOk result (core.new.prepared ≡ Some step.now) }
    ensures gone { IfOk result (λ change. change.gone ≡ place_at (gone_at (op_of step.now))) }
    ensures made { IfOk result (λ change. change.made ≡ place_at (made_at (op_of step.now))) }
    ensures opening { core.new.opening ≡ core.old.opening }
    ensures entries { core.new.entries ≡ core.old.entries }
{
    let change = change_of(alloc, step)?;
    core.prepare(step, None)?;
    Ok(change)
}

/// What is wrong where a store answered against what it was told. `error`: its answer.
pub(crate) fn damage(change: PlaceChange, error: NsError) -> Cause
    requires { (change.gone ≡ None) × (change.made ≡ None) → ⊥ }
    ensures { IsAnswerAt change result }
{
    Cause::Damaged {
        place: place_of(change, error),
        damage: Damage::Answer,
    }
}

/// The place that the answer is about.
fn place_of(change: PlaceChange, error: NsError) -> Place
    requires { (change.gone ≡ None) × (change.made ≡ None) → ⊥ }
    ensures { (change.gone ≡ Some result) ⊎ (change.made ≡ Some result) }
{
    match (change.gone, change.made, error) {
        (Some(from), Some(_), NsError::Missing) => from,
        (_, Some(place), _) => place,
        (Some(place), None, _) => place,
        (None, None, _) => unreachable!(),
    }
}
