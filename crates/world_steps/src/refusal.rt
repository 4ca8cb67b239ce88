//! Why a call of a world is refused.

ghost use Rattle.std.specs.Prelude.{◌≡◌};

use hb_names::Place;
use hb_wire::NoMemory;
use plain_model::{Actor, Hold};

/// A number that counts up and has a last value.
#[derive(Clone, Copy, Debug, PartialEq, Eq)]
pub enum Counter {
    /// That of a table's region set.
    Set,
}

/// What is wrong at a place of a store that does not tell its tree.
#[derive(Clone, Copy, Debug, PartialEq, Eq)]
pub enum Damage {
    /// The store answered that a file stands there, or that none does, against what it was told.
    Answer,
}

/// Why a line can't go on.
#[derive(Debug, Drop)]
pub enum Cause {
    NoMemory,
    /// A writing call of the store failed at the entry of this number.
    Closed(u32),
    JournalFull,
    Spent(Counter),
    /// The store failed: its count of faults rose.
    NsFault,
    Damaged { place: Place, damage: Damage },
}

/// Why a call did nothing.
#[derive(Debug, Drop)]
pub enum Refusal {
    Stop(Cause),
    /// The newest set has this number, and not the one that was asked for.
    Moved(u64),
    /// The least live actor that has a hold in conflict, and its first such hold.
    Held { by: Actor, hold: Hold },
}

impl From<NoMemory> for Cause {
    ghost use Rattle.world_steps.specs.declared.refusal.Cause.TheVariants.{NoMemory};

    ghost from_gives = { λ _ cause. cause ≡ NoMemory };

    fn from(_: NoMemory) -> Cause {
        Cause::NoMemory
    }
}

impl From<Cause> for Refusal {
    ghost use Rattle.world_steps.specs.declared.refusal.Refusal.TheVariants.{Stop};

    ghost from_gives = { λ cause refusal. refusal ≡ Stop cause };

    fn from(cause: Cause) -> Refusal {
        Refusal::Stop(cause)
    }
}

impl From<NoMemory> for Refusal {
    ghost use Rattle.world_steps.specs.declared.refusal.Cause.TheVariants.{NoMemory};
    ghost use Rattle.world_steps.specs.declared.refusal.Refusal.TheVariants.{Stop};

    ghost from_gives = { λ _ refusal. refusal ≡ Stop NoMemory };

    fn from(_: NoMemory) -> Refusal {
        Refusal::Stop(Cause::NoMemory)
    }
}
