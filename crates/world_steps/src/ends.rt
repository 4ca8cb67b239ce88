//! The ends of activities.

ghost use Rattle.std.specs.Prelude.{◌≡◌, false};
ghost use Rattle.core_model.specs.Actors.{IsLive};
ghost use Rattle.core_model.specs.declared.step.Step.TheVariants as step;
ghost use Rattle.world_steps.specs.Causes.{Adds};
ghost use Rattle.world_steps.specs.World.{owner_in, seen, state_at};

use crate::world::World;
use core_model::Step;
use hb_causes::Clock;
use ns_tree::Namespace;
use plain_model::{Actor, Reply};

impl<N: Namespace, C: Clock> World<N, C> {
    /// Ends an activity: its holds, its plan and its pins are free. It always succeeds, in a closed world too, and takes no
    /// memory. `refusal`: what it answers, if not that it is done.
    pub fn end(&mut self, actor: Actor, refusal: Option<Reply>)
        requires { IsLive (state_at self.old).now.plain.live actor.0 }
        ensures adds { Adds (owner_in (state_at self.old) actor.0) (step.End actor refusal) false (seen N.told N.faults self.old) (seen N.told N.faults self.new) }
        ensures ns { self.new.ns ≡ self.old.ns }
        ensures clock { self.new.clock ≡ self.old.clock }
    {
        let worker = self.worker_of(actor);
        self.finish(worker, Step::End { actor, refusal });
    }

    /// As [`World::end`], without a reply: what the activity wrote stays until the next opening.
    pub fn abandon(&mut self, actor: Actor)
        requires { IsLive (state_at self.old).now.plain.live actor.0 }
        ensures adds { Adds (owner_in (state_at self.old) actor.0) (step.Abandon actor) false (seen N.told N.faults self.old) (seen N.told N.faults self.new) }
        ensures ns { self.new.ns ≡ self.old.ns }
        ensures clock { self.new.clock ≡ self.old.clock }
    {
        let worker = self.worker_of(actor);
        self.finish(worker, Step::Abandon { actor });
    }
}
