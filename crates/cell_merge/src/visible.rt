//! The cells that a read shows.
ghost use Rattle.std.specs.Prelude.{◌≡◌, IfOk, OnErr};
ghost use Rattle.cell_sight.specs.Same.{sorted};
ghost use Rattle.cell_sight.specs.Visible.{visible};
ghost use Rattle.cell_merge.specs.Taken.{IsTaken};

use crate::Merge;
use crate::machine::{Machine, Step};
use hb_cell::Cell;
use hb_records::TableSchema;
use hb_wire::{Copied, NoMemory};
use std::marker::Model;

/// The visible cells of a merge, one by one. A contract sees it as those that it has left. It keeps the puts of one
/// row and family that may show, since a DeleteFamily may stand behind puts that it hides.
#[derive(Drop)]
pub struct Visible {
    machine: Machine,
}

impl Model for Visible {
    ghost use Rattle.std.specs.Prelude.{List};
    ghost use Rattle.hb_cell.specs.declared.cell.Cell.{Cell};
    ghost use Rattle.cell_merge.specs.Machine.{left};

    ghost Value = { List Cell };

    ghost view = { λ visible. left visible.machine };
}

impl Visible {
    /// The cells that a read shows of what the merge has left, under the families of a schema.
    ///
    /// Source: HBase Reference Guide, Versions and Deletes.
    pub fn new(merge: Merge, schema: &TableSchema) -> Result<Visible, NoMemory>
        ensures { IfOk result (λ shown. shown ≡ visible schema.now.families merge) }
    {
        merge.is_in_order();
        let families = schema.families.copy()?;
        Ok(Visible {
            machine: Machine::new(merge, families),
        })
    }

    /// The least visible cell that is left, or none where none is left. Without memory nothing changes, and calling
    /// again goes on.
    pub fn next(&mut self) -> Result<Option<Cell>, NoMemory>
        ensures ok { IfOk result (λ cell. IsTaken cell self.old self.new) }
        ensures err { OnErr result (self.new ≡ self.old) }
    {
        loop {
            match self.machine.step()? {
                Step::Shown(cell) => return Ok(Some(cell)),
                Step::Moved => {}
                Step::End => return Ok(None),
            }
        }
    }
}
