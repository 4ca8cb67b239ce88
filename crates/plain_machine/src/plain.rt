//! The plain machine.

ghost use Rattle.std.specs.Prelude.{◌≡◌, OnOk, OnErr, IfOk, true, false};
ghost use Rattle.plain_model.specs.After.{after};
ghost use Rattle.plain_model.specs.Replies.{reply};
ghost use Rattle.plain_events.specs.State.{HasNumber, nothing};
ghost use Rattle.plain_machine.specs.Machine.{state_of};

use crate::replies::{granted, refusal};
use hb_wire::NoMemory;
use plain_events::State;
use plain_events::by_region::value_of;
use plain_events::take::change_snapshots;
use plain_model::{Event, Job, MAX_NUMBER, Reply};
use plain_tables::snapshots::Snapshots;
use std::alloc::Global;
use std::collections::BTreeMap;

/// Tables as plain lists of cells, with the activities at work and the completed snapshots. Contracts see it as the
/// state `state_of`.
#[derive(Drop)]
pub struct Plain {
    pub(crate) alloc: Global,
    pub(crate) state: State,
    pub(crate) snapshots: Snapshots,
}

impl Plain {
    /// The machine with no table, snapshot or activity. It takes no memory.
    pub fn new(alloc: Global) -> Plain
        ensures { state_of result ≡ nothing }
    {
        Plain {
            alloc,
            state: State::new(alloc),
            snapshots: BTreeMap::new(alloc),
        }
    }

    /// Whether the number that an event raises stays within its limit, as `apply` asks.
    pub fn has_number(&self, event: &Event) -> bool
        ensures yes { result ≡ true → HasNumber event.now (state_of self.now) }
        ensures no { result ≡ false → HasNumber event.now (state_of self.now) → ⊥ }
    {
        match event {
            Event::Put { region, .. } => *value_of(self.state.seq.as_slice(), region, &0)
                < MAX_NUMBER,
            Event::Draw(region) => *value_of(self.state.seq.as_slice(), region, &0) < MAX_NUMBER,
            _ => true,
        }
    }

    /// Makes an event happen. Without memory for it nothing changes.
    pub fn apply(&mut self, event: &Event) -> Result<(), NoMemory>
        requires { HasNumber event.now (state_of self.old) }
        ensures ok { OnOk result (state_of self.new ≡ after event.now (state_of self.old)) }
        ensures err { OnErr result (state_of self.new ≡ state_of self.old) }
    {
        let next = self.state.after(self.alloc, &self.snapshots, event)?;
        change_snapshots(self.alloc, &self.state, &mut self.snapshots, event)?;
        self.state = next;
        Ok(())
    }

    /// The reply to a job: the first of its refusals that holds, or else what it answers. Refusals that speak of files
    /// and names that are drawn are not among them.
    pub fn reply(&self, job: &Job) -> Result<Reply, NoMemory>
        ensures { IfOk result (λ answer. answer ≡ reply (state_of self.now) job.now) }
    {
        match refusal(self.alloc, self, job)? {
            Some(refused) => Ok(refused),
            None => granted(self.alloc, self, job),
        }
    }
}
