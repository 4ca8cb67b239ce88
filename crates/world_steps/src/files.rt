//! Temporary files, and files that are no longer needed.

ghost use Rattle.std.specs.Prelude.{◌≡◌, ◌≤◌, [], None, false, IfErr, IfOk, OnOk};
ghost use Rattle.core_model.specs.Actors.{IsLive};
ghost use Rattle.core_model.specs.FileGuards.{CanDropOld, next_name};
ghost use Rattle.core_model.specs.declared.step.Step.TheVariants as step;
ghost use Rattle.core_places.specs.Served.{IsServedFile};
ghost use Rattle.world_steps.specs.Causes.{Adds, RefusesWrite, TakesEntry};
ghost use Rattle.world_steps.specs.Commits.{WritesSet, tmp_step};
ghost use Rattle.world_steps.specs.World.{owner_in, seen, state_at};

use crate::ghosts::{bytes_of, no_cells};
use crate::refusal::Refusal;
use crate::world::World;
use core_model::{OldFile, Recipe, Step};
use hb_causes::Clock;
use hb_file_names::{FileName, FileParts};
use hb_wire::{Copied, NoMemory};
use ns_tree::Namespace;
use plain_model::Actor;

impl<N: Namespace, C: Clock> World<N, C> {
    /// Writes a temporary file of a region set, under a name that was never drawn. `bytes`: the file's.
    pub fn write_tmp(
        &mut self,
        actor: Actor,
        recipe: Recipe,
        bytes: &[u8],
    ) -> Result<FileName, Refusal>
        requires live { IsLive (state_at self.old).now.plain.live actor.0 }
        requires file { WritesSet recipe bytes.now }
        ensures ok { OnOk result (Adds (owner_in (state_at self.old) actor.0) (tmp_step actor recipe bytes.now (state_at self.old).now) false (seen N.told N.faults self.old) (seen N.told N.faults self.new)) }
        ensures name { IfOk result (λ name. name ≡ next_name (state_at self.old).now.epoch (state_at self.old).now.files None) }
        ensures takes { OnOk result (TakesEntry 0 (seen N.told N.faults self.old)) }
        ensures err { IfErr result (RefusesWrite (owner_in (state_at self.old) actor.0) (tmp_step actor recipe bytes.now (state_at self.old).now) (seen N.told N.faults self.old) (seen N.told N.faults self.new)) }
        ensures clock { self.new.clock ≡ self.old.clock }
        ensures later { N.faults self.old.ns ≤ N.faults self.new.ns }
    {
        self.takes_entry(0)?;
        let worker = self.worker_of(actor);
        let name = self.next_name()?;
        let step = Step::WriteTmp {
            actor,
            recipe,
            name: name.copy()?,
            cells: no_cells(),
            bytes: bytes_of(bytes),
        };
        self.write(worker, step, bytes)?;
        Ok(name)
    }

    /// The name that is drawn next.
    fn next_name(&self) -> Result<FileName, NoMemory>
        ensures { IfOk result (λ name. name ≡ next_name (state_at self.now).now.epoch (state_at self.now).now.files None) }
    {
        self.holds();
        let parts = FileParts {
            epoch: self.core().opening().epoch as u64,
            counter: self.core().counts().files + 1,
            seq: None,
        };
        FileName::new(self.alloc, parts)
    }

    /// Deletes a file that is no longer needed.
    pub fn drop_old(&mut self, actor: Actor, file: OldFile) -> Result<(), Refusal>
        requires served { IsServedFile file }
        requires old { CanDropOld actor.0 file (state_at self.old).now }
        ensures ok { OnOk result (Adds (owner_in (state_at self.old) actor.0) (step.DropOld actor file) false (seen N.told N.faults self.old) (seen N.told N.faults self.new)) }
        ensures takes { OnOk result (TakesEntry 0 (seen N.told N.faults self.old)) }
        ensures err { IfErr result (RefusesWrite (owner_in (state_at self.old) actor.0) (step.DropOld actor file) (seen N.told N.faults self.old) (seen N.told N.faults self.new)) }
        ensures clock { self.new.clock ≡ self.old.clock }
        ensures later { N.faults self.old.ns ≤ N.faults self.new.ns }
    {
        self.takes_entry(0)?;
        let worker = self.worker_of(actor);
        self.write(worker, Step::DropOld { actor, file }, &[])?;
        Ok(())
    }
}
