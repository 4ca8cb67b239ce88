//! Merged cells.
ghost use Rattle.std.specs.Prelude.{◌≡◌, ◌≤◌, ◌<◌, ◌+◌, ◌++◌, IfOk, OnErr};
ghost use Rattle.std.specs.BinaryHeap.{heap_items, heap_len, heap_capacity};
ghost use Rattle.std.specs.Vec.Iter.{into_iter_items};
ghost use Rattle.cell_sight.specs.Same.{Same, sorted};
ghost use Rattle.cell_merge.specs.Heads.{all_left, AreReady};
ghost use Rattle.cell_merge.specs.Input.{IsInOrder, merged};
ghost use Rattle.cell_merge.specs.Taken.{IsTaken};

use crate::Input;
use crate::head::Head;
use hb_cell::Cell;
use hb_wire::{Items, NoMemory};
use std::collections::BinaryHeap;
use std::marker::Model;
use std::vec::IntoIter;

/// The cells of several inputs in key order. A contract sees it as the cells that it has left.
#[derive(Drop)]
pub struct Merge {
    heads: BinaryHeap<Head>,
}

impl Model for Merge {
    ghost use Rattle.std.specs.Prelude.{List};
    ghost use Rattle.std.specs.BinaryHeap.{heap_items};
    ghost use Rattle.hb_cell.specs.declared.cell.Cell.{Cell};
    ghost use Rattle.cell_sight.specs.Same.{sorted};
    ghost use Rattle.cell_merge.specs.Heads.{all_left, AreReady};

    ghost Value = { List Cell };

    ghost view = { λ merge. sorted (all_left (heap_items merge.heads)) };

    ghost invariant = { λ merge. AreReady merge.heads };
}

/// Adds what an input has left to the heads, for which there is room.
fn push_rest(heads: &mut BinaryHeap<Head>, mut rest: IntoIter<Cell>)
    requires ready { AreReady heads.old }
    requires room { heap_len heads.old < heap_capacity heads.old }
    requires order { sorted (into_iter_items rest) ≡ into_iter_items rest }
    ensures ready { AreReady heads.new }
    ensures len { heap_len heads.new ≤ heap_len heads.old + 1 }
    ensures capacity { heap_capacity heads.old ≤ heap_capacity heads.new }
    ensures same { Same (all_left (heap_items heads.new)) (into_iter_items rest ++ all_left (heap_items heads.old)) }
{
    if let Some(cell) = rest.next() {
        heads.push(Head { cell, rest }).unwrap();
    }
}

impl Merge {
    /// The merge of these inputs: all their cells, cut and renumbered, each as often as it stands there. It takes the
    /// inputs' cells and copies none.
    pub fn new(inputs: Items<Input>) -> Result<Merge, NoMemory>
        requires { IsInOrder inputs }
        ensures { IfOk result (λ merge. merge ≡ merged inputs) }
    {
        let mut heads = BinaryHeap::with_capacity(inputs.allocator(), inputs.len())?;
        let mut inputs = inputs.into_vec().into_iter();
        while let Some(input) = inputs.next() {
            let cells = input.into_cells()?;
            push_rest(&mut heads, cells.into_iter());
        }
        Ok(Merge { heads })
    }

    /// The cells that are left stand in key order.
    pub(crate) fn is_in_order(&self)
        ensures { sorted self.now ≡ self.now }
    {
        let _ = &self.heads;
    }

    /// The least cell that is left, or none where none is left. Without memory nothing changes.
    pub fn next(&mut self) -> Result<Option<Cell>, NoMemory>
        ensures ok { IfOk result (λ cell. IsTaken cell self.old self.new) }
        ensures err { OnErr result (self.new ≡ self.old) }
    {
        let Some(head) = self.heads.pop() else {
            return Ok(None);
        };
        let Head { cell, rest } = head;
        push_rest(&mut self.heads, rest);
        Ok(Some(cell))
    }
}
