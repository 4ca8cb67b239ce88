//! A whole HFile.
ghost use Rattle.std.specs.Prelude.{◌≡◌, ◌≤◌, ◌+◌, List, length, take};
ghost use Rattle.hb_cell.specs.declared.cell.Cell.{Cell};
ghost use Rattle.hfile_block.specs.CellBlock.{GivesCells};
ghost use Rattle.hfile_form.specs.File.{IsHFile, IsAnswer, rest_at, counted};
ghost use Rattle.hfile_read.specs.Answers.{Gives};
ghost use Rattle.hfile_read.specs.Views.{opened_view};

use crate::front::{ReadFront, read_front};
use crate::info::read_numbered;
use crate::left::ReadLeft;
use crate::opened::{ReadOpened, before_place, from_place, read_opened};
use crate::tail::{pass_blocks, read_trailer};
use crate::tree::check_index;
use hb_cell::Cell;
use hb_wire::Items;
use hfile_block::HFileError;
use hfile_meta::{TRAILER_LEN, Trailer};
use std::alloc::Global;

/// The cells, where the trailer tells as many.
fn counted(trailer: &Trailer, cells: Vec<Cell>) -> Result<Vec<Cell>, HFileError>
    ensures { Gives (λ x. x.items) result (counted trailer.now cells.items) }
{
    let found = cells.len() as u64;
    if trailer.entries == found {
        Ok(cells)
    } else {
        Err(HFileError::Count {
            written: trailer.entries,
            found,
        })
    }
}

/// The cells of a file, by the parts that are loaded on open: the blocks in their order, then the index, then the count.
fn read_rest(
    alloc: Global,
    trailer: &Trailer,
    opened: ReadOpened<'_>,
    with_seq: bool,
    body: &[u8],
) -> Result<Vec<Cell>, HFileError>
    requires { trailer.now.info_at + 33 + opened.info.header.on_disk ≤ length body.now }
    ensures { Gives (λ x. x.items) result (rest_at trailer.now (opened_view opened.entry) with_seq body.now) }
{
    let front = read_front(alloc, before_place(body, trailer.load_at), with_seq)?;
    let behind = trailer.info_at + opened.info.size();
    pass_blocks(from_place(body, behind), behind)?;
    let ReadFront {
        cells,
        datas,
        nodes,
    } = front;
    let left = ReadLeft {
        nodes,
        datas: &datas,
    };
    check_index(alloc, trailer, opened.root, &cells, left)?;
    counted(trailer, cells)
}

/// The cells of an HFile of version 2, in their order, or the first fault of bytes that are none.
///
/// Each block is read once and in place, and no memory is taken by a number that was read. The fault is that of the
/// trailer, then of the parts that are loaded on open, then of the file info, then of the blocks in their order, then of
/// the index, and then of the count. Source: HBase Reference Guide, HFile format; `HFileReaderImpl`.
pub fn check(alloc: Global, bytes: &[u8]) -> Result<Items<Cell>, HFileError>
    // The cells of the HFile that the bytes are, or their first fault.
    ensures exact { IsAnswer bytes.now result }
    // What is an HFile of some cells is answered with these cells.
    ensures only { (cells : List Cell) → IsHFile bytes.now cells → GivesCells result cells }
{
    read_file(alloc, bytes)
}

/// What [`check`] answers.
fn read_file(alloc: Global, bytes: &[u8]) -> Result<Items<Cell>, HFileError>
    ensures { IsAnswer bytes.now result }
{
    let trailer = read_trailer(bytes)?;
    let (body, _) = bytes.split_at(bytes.len() - TRAILER_LEN);
    let opened = read_opened(&trailer, body)?;
    let with_seq = read_numbered(alloc, opened.info.content(), trailer.info_at)?;
    let cells = read_rest(alloc, &trailer, opened, with_seq, body)?;
    Ok(Items::from_vec(cells))
}
