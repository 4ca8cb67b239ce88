//! The names of the complete snapshots.

ghost use Rattle.std.specs.Prelude.{◌≡◌, false, IfErr, IfOk, OnOk};
ghost use Rattle.core_model.specs.declared.step.Step.TheVariants as step;
ghost use Rattle.plain_model.specs.declared.job.Job.TheVariants.{ListSnapshots};
ghost use Rattle.plain_model.specs.Replies.{reply};
ghost use Rattle.world_steps.specs.Causes.{Adds, RefusesNoted, TakesEntry};
ghost use Rattle.world_steps.specs.World.{seen, state_at};

use crate::refusal::Refusal;
use crate::world::World;
use core_model::Step;
use hb_causes::Clock;
use ns_tree::Namespace;
use plain_model::{Reply, Who};

impl<N: Namespace, C: Clock> World<N, C> {
    /// The names of the complete snapshots, in byte order.
    pub fn list_snapshots(&mut self, who: Who) -> Result<Reply, Refusal>
        ensures ok { OnOk result (Adds who.worker (step.ListSnapshots who) false (seen N.told N.faults self.old) (seen N.told N.faults self.new)) }
        ensures reply { IfOk result (λ answer. answer ≡ reply (state_at self.old).now.plain ListSnapshots) }
        ensures takes { OnOk result (TakesEntry 0 (seen N.told N.faults self.old)) }
        ensures err { IfErr result (RefusesNoted 0 (seen N.told N.faults self.old) (seen N.told N.faults self.new)) }
        ensures ns { self.new.ns ≡ self.old.ns }
        ensures clock { self.new.clock ≡ self.old.clock }
    {
        self.takes_entry(0)?;
        self.holds();
        let names = self.core().snapshot_names()?;
        self.note(who.worker, Step::ListSnapshots { who }, None)?;
        Ok(Reply::Snapshots(names))
    }
}
