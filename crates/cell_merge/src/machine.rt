//! The steps by which cells in key order are told apart into those that show and those that don't.
ghost use Rattle.std.specs.Prelude.{◌≡◌, ◌<◌, [], Some, None, IfOk, OnOk, OnErr};
ghost use Rattle.hb_cell.specs.declared.cell.Cell.{Cell};
ghost use Rattle.cell_merge.specs.declared.machine.Machine.{Machine};
ghost use Rattle.cell_merge.specs.Kept.{empty, alive, run};
ghost use Rattle.cell_merge.specs.Machine.{left, way, with_next, IsStep};

use crate::Merge;
use crate::group::{Group, is_hidden};
use hb_cell::Cell;
use hb_names::FamilyName;
use hb_wire::{Items, NoMemory};
use std::collections::VecDeque;

/// Cells on their way: from the merge, one in hand, to those that are kept of a row and family, to those that may show
/// once that is over.
#[derive(Drop)]
pub(crate) struct Machine {
    pub(crate) merge: Merge,
    pub(crate) families: Items<(FamilyName, u32)>,
    pub(crate) ahead: Option<Cell>,
    pub(crate) group: Group,
    pub(crate) ready: VecDeque<Cell>,
    /// The marker that hides what is ready, up to its timestamp.
    pub(crate) over: Option<Cell>,
}

/// What a step did.
#[derive(Drop)]
pub(crate) enum Step {
    /// This cell shows.
    Shown(Cell),
    /// A cell went on.
    Moved,
    /// No cell is left.
    End,
}

impl Machine {
    /// All cells are in the merge.
    pub(crate) fn new(merge: Merge, families: Items<(FamilyName, u32)>) -> Machine
        ensures { left result ≡ run families empty merge }
    {
        let alloc = families.allocator();
        Machine {
            merge,
            families,
            ahead: None,
            group: Group::new(alloc),
            ready: VecDeque::new(alloc),
            over: None,
        }
    }

    /// The row and family that is kept is over.
    fn turn_over(&mut self)
        requires { self.old.ready.items ≡ [] }
        ensures puts { self.new.ready.items ≡ self.old.group.held }
        ensures marker { self.new.over ≡ self.old.group.family }
        ensures group { self.new.group ≡ empty }
        ensures rest { (self.new.merge ≡ self.old.merge) × (self.new.families ≡ self.old.families) × (self.new.ahead ≡ self.old.ahead) }
    {
        self.over = self.group.give(&mut self.ready);
    }

    /// Takes in the next cell, or turns over before it.
    fn take_in(&mut self, cell: Cell) -> Result<Step, NoMemory>
        requires ready { self.old.ready.items ≡ [] }
        requires ahead { self.old.ahead ≡ None }
        ensures ok { IfOk result (λ step. IsStep step (with_next self.old cell) self.new) }
        ensures err { OnErr result (left self.new ≡ left (with_next self.old cell)) }
    {
        if self.group.is_ended_by(&cell) {
            self.ahead = Some(cell);
            self.turn_over();
            return Ok(Step::Moved);
        }
        match self.group.absorb(cell, self.families.as_slice()) {
            Ok(()) => Ok(Step::Moved),
            Err((cell, want)) => {
                self.ahead = Some(cell);
                Err(want)
            }
        }
    }

    /// Turns over for the last time, where something is kept.
    fn finish(&mut self) -> Step
        requires ready { self.old.ready.items ≡ [] }
        requires rest { (self.old.ahead ≡ None) × (self.old.merge ≡ []) }
        ensures { IsStep result self.old self.new }
    {
        if self.group.is_empty() {
            return Step::End;
        }
        self.turn_over();
        Step::Moved
    }

    /// One step. Without memory what is to be shown stays.
    pub(crate) fn step(&mut self) -> Result<Step, NoMemory>
        ensures ok { IfOk result (λ step. IsStep step self.old self.new) }
        ensures err { OnErr result (left self.new ≡ left self.old) }
    {
        if let Some(cell) = self.ready.pop_front() {
            return Ok(if is_hidden(&self.over, &cell) {
                Step::Moved
            } else {
                Step::Shown(cell)
            });
        }
        if let Some(cell) = self.ahead.take() {
            return self.take_in(cell);
        }
        match self.merge.next()? {
            Some(cell) => self.take_in(cell),
            None => Ok(self.finish()),
        }
    }
}
