//! The cells of a data block.
ghost use Rattle.std.specs.Prelude.{◌≡◌, ◌<◌, ◌+◌, ◌^◌, ◌++◌, List, length, Ok, Some, None, OnOk, IfErr, if◌then◌else◌};
ghost use Rattle.hb_cell.specs.declared.cell.Cell.{Cell};
ghost use Rattle.hfile_form.specs.DataCells.{is_above, last_or, or_first, data_at};
ghost use Rattle.hfile_block.specs.CellBlock.{block_fault};
ghost use Rattle.hfile_read.specs.Answers.{Fails};

use hb_cell::{Cell, CellError, cmp_key, decode_cell};
use hfile_block::HFileError;
use std::alloc::Global;

/// Whether a cell stands above the last of those before it.
fn is_above(cells: &[Cell], cell: &Cell) -> bool
    ensures { result ≡ is_above (last_or None cells.now) cell.now }
{
    match cells {
        [] => true,
        [.., last] => cmp_key(last, cell).is_lt(),
    }
}

/// The fault of a cell at a place of the file.
fn cell_fault(at: u64, cause: CellError) -> HFileError
    ensures { result ≡ block_fault at cause }
{
    match cause {
        CellError::NoMemory => HFileError::NoMemory,
        cause => HFileError::Cell { at, cause },
    }
}

/// The first place that was found: the one found before, or else that of this cell, where it does not stand above the
/// last of those before it.
fn first_misplaced(found: Option<u64>, cells: &[Cell], cell: &Cell, at: u64) -> Option<u64>
    ensures { result ≡ or_first found (if is_above (last_or None cells.now) cell.now then None else Some at) }
{
    match found {
        None if !is_above(cells, cell) => Some(at),
        found => found,
    }
}

/// Adds the cells of a data block's content, at least one, behind those of the blocks before it. `at` is the place of
/// the content in the file.
///
/// The fault is that of the first cell that can't be read, and then that of the first one which does not stand above
/// the one before it.
pub fn add_cells(
    alloc: Global,
    content: &[u8],
    at: u64,
    with_seq: bool,
    cells: &mut Vec<Cell>,
) -> Result<(), HFileError>
    requires { at + length content.now < 2 ^ 64 }
    ensures ok { OnOk result ((found : List Cell) × (data_at with_seq at (last_or None cells.old.items) content.now ≡ Ok found)
        × (cells.new.items ≡ cells.old.items ++ found)) }
    ensures err { IfErr result (λ e. Fails e (data_at with_seq at (last_or None cells.old.items) content.now)) }
{
    if content.is_empty() {
        let cause = CellError::Short(8);
        return Err(HFileError::Cell { at, cause });
    }
    let mut place = 0;
    let mut misplaced = None;
    while place < content.len() {
        match decode_cell(alloc, content, place, with_seq) {
            Ok((cell, used)) => {
                misplaced = first_misplaced(misplaced, cells.as_slice(), &cell, at + place as u64);
                cells.push(cell)?;
                place += used;
            }
            Err(cause) => return Err(cell_fault(at + place as u64, cause)),
        }
    }
    match misplaced {
        None => Ok(()),
        Some(at) => Err(HFileError::Order(at)),
    }
}
