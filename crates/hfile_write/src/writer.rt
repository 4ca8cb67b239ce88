//! The writer of an HFile.
ghost use Rattle.std.specs.Prelude.{◌≡◌, ◌+◌, ◌++◌, ◌∷◌, [], length, None, IfOk, OnOk, OnErr};
ghost use Rattle.hb_cell.specs.Limits.{IsCell};
ghost use Rattle.hfile_index.specs.Written.{index_of};
ghost use Rattle.hfile_index.specs.Short.{IsSmall, HasSmallNodes};
ghost use Rattle.hfile_meta.specs.Written.{written_trailer};
ghost use Rattle.hfile_form.specs.DataCells.{is_above, last_or};
ghost use Rattle.hfile_write.specs.Written.{total_len, front_of, roots_of, body_of, trailer_for, written};
ghost use Rattle.hfile_write.specs.Answers.{Judges};

use crate::AddError;
use crate::chain::{put_chain, total_len};
use crate::data::DataBlocks;
use crate::ended::EndedBlocks;
use crate::info::info_content;
use crate::summary::{Summary, more};
use hb_cell::{Cell, cmp_key};
use hb_wire::{Blob, Copied, NoMemory};
use hfile_block::Magic;
use hfile_index::WrittenIndex;
use hfile_meta::{Trailer, write_trailer};
use std::alloc::Global;
use std::marker::Model;

/// A writer of an HFile. A contract sees it as the cells that were added.
///
/// It keeps the block in hand, the index so far, and the bytes of the blocks that are ended.
#[derive(Drop)]
pub struct HFileWriter {
    blocks: DataBlocks,
    summary: Summary,
    last: Option<Cell>,
}

impl Model for HFileWriter {
    ghost use Rattle.std.specs.Prelude.{List};
    ghost use Rattle.hb_cell.specs.declared.cell.Cell.{Cell};
    ghost use Rattle.hfile_write.specs.Summary.{IsTold};

    ghost Value = { List Cell };

    ghost view = { λ w. w.blocks };

    ghost invariant = { λ w. IsTold w.blocks w.summary w.last };
}

/// Whether a cell stands above the last one.
fn is_above(last: &Option<Cell>, cell: &Cell) -> bool
    ensures { result ≡ is_above last.now cell.now }
{
    match last {
        None => true,
        Some(last) => cmp_key(last, cell).is_lt(),
    }
}

impl HFileWriter {
    /// A file of no cells.
    pub fn new(alloc: Global) -> Result<HFileWriter, NoMemory>
        ensures { IfOk result (λ writer. writer ≡ []) }
    {
        Ok(HFileWriter {
            blocks: DataBlocks::new(alloc),
            summary: Summary::new(),
            last: None,
        })
    }

    /// Adds a cell behind the others. A cell that does not stand above the last one is refused, and then, or without
    /// memory for it, nothing changes.
    ///
    /// Source: HBase Reference Guide, HFile format; `HFileWriterImpl.append`.
    pub fn add(&mut self, cell: &Cell) -> Result<(), AddError>
        requires { IsCell cell.now }
        ensures ok { OnOk result (self.new ≡ self.old ++ cell.now ∷ []) }
        ensures err { OnErr result (self.new ≡ self.old) }
        // Whether the cell is refused.
        ensures judged { Judges (is_above (last_or None self.old) cell.now) result }
    {
        if !is_above(&self.last, cell) {
            return Err(AddError::NotAscending);
        }
        let summary = self.summary.with_cell(cell)?;
        let last = cell.copy()?;
        self.blocks.put(cell)?;
        self.summary = summary;
        self.last = Some(last);
        Ok(())
    }

    /// The file of the cells that were added.
    ///
    /// Source: HBase Reference Guide, HFile format; `HFileWriterImpl.close`.
    pub fn finish(self) -> Result<Blob, NoMemory>
        ensures { IfOk result (λ file. file ≡ written self) }
    {
        let alloc = self.blocks.allocator();
        let info = info_content(alloc, &self.summary, &self.last)?;
        let HFileWriter {
            blocks,
            summary,
            last: _,
        } = self;
        write_rest(alloc, blocks.finish()?, info, summary.cells)
    }
}

/// How many bytes the contents of an index have.
fn index_len(index: &WrittenIndex) -> Result<u64, NoMemory>
    ensures { IfOk result (λ total. total
        ≡ total_len index.now.leaves + total_len index.now.intermediates + length index.now.root) }
{
    let leaves = total_len(index.leaves.as_slice())?;
    let intermediates = total_len(index.intermediates.as_slice())?;
    more(more(leaves, intermediates as usize)?, index.root.len())
}

/// Adds the nodes of an index below its root, behind the data blocks.
fn put_nodes(out: &mut Blob, index: &WrittenIndex) -> Result<(), NoMemory>
    requires { HasSmallNodes index.now }
    ensures { OnOk result (out.new ≡ front_of out.old index.now) }
{
    put_chain(out, Magic::Leaf, index.leaves.as_slice())?;
    put_chain(out, Magic::Intermediate, index.intermediates.as_slice())
}

/// The file with what stands behind the data blocks.
fn write_rest(alloc: Global, ended: EndedBlocks, info: Blob, cells: u64) -> Result<Blob, NoMemory>
    requires { IsSmall info }
    ensures { IfOk result (λ file. file ≡ body_of ended.file (index_of ended.index) info
        ++ written_trailer (trailer_for ended.file (index_of ended.index) ended.total ended.last_at cells)) }
{
    let EndedBlocks {
        file,
        index,
        last_at,
        total,
    } = ended;
    let mut out = file;
    let index = index.finish()?;
    let index_bytes = index_len(&index)?;
    put_nodes(&mut out, &index)?;
    let load_at = out.len() as u64;
    let (count, levels) = (index.count, index.levels);
    let roots = [index.root, Blob::from_vec(Vec::new(alloc))];
    put_chain(&mut out, Magic::Root, &roots)?;
    let info_at = out.len() as u64;
    put_chain(&mut out, Magic::Info, &[info])?;
    let trailer = Trailer {
        info_at,
        load_at,
        index_bytes,
        total_bytes: total,
        data_count: count,
        meta_count: 0,
        entries: cells,
        levels,
        first: 0,
        last: last_at.unwrap_or(0),
        compression: 2,
    };
    write_trailer(&mut out, &trailer)?;
    Ok(out)
}
