//! The cells of a data block.
ghost use Rattle.std.specs.Prelude.{◌≡◌, ◌<◌, ◌+◌, ◌^◌, List, length, IfOk, IfErr};
ghost use Rattle.hb_cell.specs.declared.cell.Cell.{Cell};
ghost use Rattle.hfile_block.specs.CellBlock.{cells_bytes, AreStorable, block_fault, IsBlockFault, GivesCells};

use crate::HFileError;
use hb_cell::{Cell, CellError, decode_cell};
use hb_wire::Items;
use std::alloc::Global;

/// The fault of a block, for what was wrong with the cell at a place of the file.
fn block_fault(at: u64, cause: CellError) -> HFileError
    ensures { result ≡ block_fault at cause }
{
    match cause {
        CellError::NoMemory => HFileError::NoMemory,
        cause => HFileError::Cell { at, cause },
    }
}

/// The cells that stand one after another in a data block's content until its end, whatever their order. `at` is the
/// place of the content in the file, and `with_seq` tells whether a sequence number stands behind each value.
///
/// The fault is that of the first cell that can't be read, with its place in the file. Source: HBase Reference
/// Guide, HFile format, data block.
pub fn cells_of_block(
    alloc: Global,
    content: &[u8],
    at: u64,
    with_seq: bool,
) -> Result<Items<Cell>, HFileError>
    requires { at + length content.now < 2 ^ 64 }
    // What is read is these cells' bytes, each byte of them.
    ensures found { IfOk result (λ cells. AreStorable with_seq cells
        × (content.now ≡ cells_bytes with_seq cells)) }
    // What is some cells' bytes is read as these cells.
    ensures only { (cells : List Cell) → AreStorable with_seq cells → content.now ≡ cells_bytes with_seq cells
        → GivesCells result cells }
    // Which fault it is.
    ensures fault { IfErr result (λ fault. IsBlockFault with_seq content.now at fault) }
{
    all_cells(alloc, content, at, with_seq)
}

/// What [`cells_of_block`] answers.
fn all_cells(
    alloc: Global,
    content: &[u8],
    at: u64,
    with_seq: bool,
) -> Result<Items<Cell>, HFileError>
    requires { at + length content.now < 2 ^ 64 }
    ensures found { IfOk result (λ cells. AreStorable with_seq cells
        × (content.now ≡ cells_bytes with_seq cells)) }
    ensures fault { IfErr result (λ fault. IsBlockFault with_seq content.now at fault) }
{
    let mut cells = Vec::new(alloc);
    let mut place = 0;
    while place < content.len() {
        match decode_cell(alloc, content, place, with_seq) {
            Ok((cell, used)) => {
                cells.push(cell)?;
                place += used;
            }
            Err(cause) => return Err(block_fault(at + place as u64, cause)),
        }
    }
    Ok(Items::from_vec(cells))
}
