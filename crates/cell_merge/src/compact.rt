//! What a compaction leaves of cells.
ghost use Rattle.std.specs.Prelude.{◌≡◌, ◌++◌, ◌∷◌, [], IfOk, OnOk, if◌then◌else◌};
ghost use Rattle.cell_sight.specs.Visible.{visible};
ghost use Rattle.cell_merge.specs.Input.{IsInOrder, merged};

use crate::{Input, Merge, Visible};
use hb_cell::Cell;
use hb_records::TableSchema;
use hb_wire::{Items, NoMemory};
use std::alloc::Global;

/// All cells of a merge.
fn drain(alloc: Global, mut merge: Merge) -> Result<Items<Cell>, NoMemory>
    ensures { IfOk result (λ cells. cells ≡ merge) }
{
    let mut cells = Items::new(alloc);
    while let Some(cell) = merge.next()? {
        push(&mut cells, cell)?;
    }
    Ok(cells)
}

/// All visible cells that are left.
fn drain_visible(alloc: Global, mut shown: Visible) -> Result<Items<Cell>, NoMemory>
    ensures { IfOk result (λ cells. cells ≡ shown) }
{
    let mut cells = Items::new(alloc);
    while let Some(cell) = shown.next()? {
        push(&mut cells, cell)?;
    }
    Ok(cells)
}

/// Adds a cell at the end.
fn push(cells: &mut Items<Cell>, cell: Cell) -> Result<(), NoMemory>
    ensures { OnOk result (cells.new ≡ cells.old ++ cell ∷ []) }
{
    match cells.push(cell) {
        Ok(()) => Ok(()),
        Err((_, want)) => Err(want),
    }
}

/// What a compaction makes of its inputs: all their cells in key order, or, where it is a major one, those of them
/// that are visible under a schema.
///
/// Source: HBase Reference Guide, Compaction.
pub fn compact_cells(
    inputs: Items<Input>,
    schema: &TableSchema,
    major: bool,
) -> Result<Items<Cell>, NoMemory>
    requires { IsInOrder inputs }
    ensures { IfOk result (λ cells. cells ≡ (if major then visible schema.now.families (merged inputs) else merged inputs)) }
{
    let alloc = inputs.allocator();
    let merge = Merge::new(inputs)?;
    if major {
        drain_visible(alloc, Visible::new(merge, schema)?)
    } else {
        drain(alloc, merge)
    }
}
