//! How many names, ids and actors there were.

ghost use Rattle.std.specs.Prelude.{◌≡◌, OnOk};
ghost use Rattle.core_model.specs.Replay.{closed_by};
ghost use Rattle.world_state.specs.Changes.{count_change, start_counts};
ghost use Rattle.world_state.specs.Parts.{counts_with};
ghost use Rattle.world_state.specs.Rooms.{CountsFit};

use core_model::{Drawn, Started, Step};
use hb_wire::NoMemory;
use std::alloc::AllocError;

/// How many file names and region ids were drawn since the opening, and how many actors have begun.
#[derive(Clone, Copy, Debug)]
pub struct Counts {
    pub files: u64,
    pub ids: u64,
    pub begun: u32,
}

/// What a step counts.
#[derive(Clone, Copy, Debug)]
pub enum CountChange {
    Nothing,
    /// The name of a file.
    File,
    /// An actor, and so many region ids.
    Actor(u64),
}

impl Counts {
    /// Nothing was drawn.
    pub(crate) fn none() -> Counts
        ensures { result ≡ record { files = 0; ids = 0; begun = 0 } }
    {
        Counts {
            files: 0,
            ids: 0,
            begun: 0,
        }
    }
}

/// What a step counts.
pub(crate) fn count_change(step: &Step) -> CountChange
    ensures { result ≡ count_change step.now }
{
    match step {
        Step::WriteTmp { .. } => CountChange::File,
        Step::Start { started, drawn, .. } => start_counts(started, drawn),
        _ => CountChange::Nothing,
    }
}

fn start_counts(started: &Started, drawn: &Drawn) -> CountChange
    ensures { result ≡ start_counts started.now drawn.now }
{
    match started {
        Started::Live(_) => CountChange::Actor(drawn.regions.len() as u64),
        Started::Refused(_) => CountChange::Nothing,
    }
}

/// Refuses what the counts have no room for, as it does want of memory.
pub(crate) fn ready_counts(counts: Counts, change: CountChange) -> Result<(), NoMemory>
    ensures { OnOk result (CountsFit change counts) }
{
    let fits = match change {
        CountChange::Nothing => true,
        CountChange::File => counts.files < u64::MAX,
        CountChange::Actor(ids) => ids <= u64::MAX - counts.ids && counts.begun < u32::MAX,
    };
    if fits { Ok(()) } else { Err(AllocError) }
}

/// The counts with what a step counts.
pub(crate) fn counts_after(counts: Counts, change: CountChange) -> Counts
    requires { CountsFit change counts }
    ensures { result ≡ counts_with change counts }
{
    match change {
        CountChange::Nothing => counts,
        CountChange::File => Counts {
            files: counts.files + 1,
            ..counts
        },
        CountChange::Actor(ids) => Counts {
            files: counts.files,
            ids: counts.ids + ids,
            begun: counts.begun + 1,
        },
    }
}

/// The number of the entry at which the store closed, once this one is made.
pub(crate) fn closed_after(number: u32, failed: bool, closed: Option<u32>) -> Option<u32>
    ensures { result ≡ closed_by number failed closed }
{
    if failed { Some(number) } else { closed }
}
