//! The inputs of a merge.
ghost use Rattle.std.specs.Prelude.{◌≡◌, IfOk, List, map, filter};
ghost use Rattle.cell_sight.specs.Same.{sorted};
ghost use Rattle.cell_merge.specs.Input.{cells_of, keeps, numbered};

use hb_cell::Cell;
use hb_wire::{Blob, Items, NoMemory};

/// Cells in key order, and what a read takes of them.
#[derive(Debug, Drop)]
pub struct Input {
    /// The cells, in key order.
    pub cells: Items<Cell>,
    /// The half of a file that is read: the rows from this one on (true), or those below it (false).
    pub half: Option<(Blob, bool)>,
    /// The sequence number that replaces those of the cells.
    pub seq: Option<u64>,
}

/// Whether a half keeps a cell.
fn is_kept(half: &Option<(Blob, bool)>, cell: &Cell) -> bool
    ensures { result ≡ keeps half.now cell.now }
{
    match half {
        None => true,
        Some((row, true)) => cell.row >= *row,
        Some((row, false)) => cell.row < *row,
    }
}

/// A cell with the number that replaces its own.
fn renumber(seq: Option<u64>, cell: Cell) -> Cell
    ensures { result ≡ numbered seq cell }
{
    match seq {
        None => cell,
        Some(seq) => Cell { seq, ..cell },
    }
}

/// The cells of a half with the number that replaces theirs, in their order.
fn take_cells(
    cells: Vec<Cell>,
    half: &Option<(Blob, bool)>,
    seq: Option<u64>,
) -> Result<Vec<Cell>, NoMemory>
    ensures { IfOk result (λ taken. taken.items ≡ map (numbered seq) (filter (keeps half.now) cells.items)) }
{
    let mut taken = Vec::new(*cells.allocator());
    let mut rest = cells.into_iter();
    while let Some(cell) = rest.next() {
        if is_kept(half, &cell) {
            taken.push(renumber(seq, cell))?;
        }
    }
    Ok(taken)
}

/// The cells in key order. Without memory they are lost.
pub fn put_in_order(mut cells: Vec<Cell>) -> Result<Vec<Cell>, NoMemory>
    ensures exact { IfOk result (λ ordered. ordered.items ≡ sorted cells.items) }
    ensures again { IfOk result (λ ordered. sorted ordered.items ≡ ordered.items) }
{
    cells.sort()?;
    Ok(cells)
}

impl Input {
    /// The cells that the input gives, in key order. Cells that tie but for their number are put right by their
    /// values where the number is replaced.
    pub(crate) fn into_cells(self) -> Result<Vec<Cell>, NoMemory>
        requires { sorted self.cells ≡ self.cells }
        ensures { IfOk result (λ cells. cells.items ≡ sorted (cells_of self)) }
    {
        let Input { cells, half, seq } = self;
        let cells = cells.into_vec();
        if seq.is_some() {
            let taken = take_cells(cells, &half, seq)?;
            return put_in_order(taken);
        }
        if half.is_some() {
            return take_cells(cells, &half, seq);
        }
        Ok(cells)
    }
}
