//! Cells that become data blocks.
ghost use Rattle.std.specs.Prelude.{◌≡◌, ◌++◌, ◌∷◌, [], IfOk, OnOk, OnErr};
ghost use Rattle.hb_cell.specs.Limits.{IsCell};
ghost use Rattle.hfile_index.specs.Short.{IsSmall};
ghost use Rattle.hfile_write.specs.Blocks.{blocks_of};
ghost use Rattle.hfile_write.specs.Ended.{HasFirstKey, IsEnded, ended_of};

use crate::ended::EndedBlocks;
use hb_cell::{Cell, encode_cell};
use hb_ghost::{Ghost, Reads};
use hb_wire::{Blob, Items, NoMemory};
use std::alloc::Global;
use std::marker::Model;

/// With how many bytes of content a block ends. Source: HBase `HConstants.DEFAULT_BLOCKSIZE`.
const BLOCK_SIZE: usize = 65_536;

/// Cells, and one more.
#[derive(Clone, Copy)]
struct Pushed<'a> {
    front: &'a Ghost<Items<Cell>>,
    cell: &'a Cell,
}

struct Push;

impl<'a> Reads<Pushed<'a>, Items<Cell>> for Push {
    ghost use Rattle.std.specs.Prelude.{◌++◌, ◌∷◌, []};

    ghost reads = { λ p. p.front.now ++ p.cell.now ∷ [] };
}

struct NoCells;

impl Reads<(), Items<Cell>> for NoCells {
    ghost use Rattle.std.specs.Prelude.{[]};

    ghost reads = { λ _. [] };
}

/// One more cell.
fn with_one(front: &Ghost<Items<Cell>>, cell: &Cell) -> Ghost<Items<Cell>>
    ensures { result ≡ front.now ++ cell.now ∷ [] }
{
    Ghost::<Items<Cell>>::of::<Pushed<'_>, Push>(&Pushed { front, cell })
}

/// No cells.
fn no_cells() -> Ghost<Items<Cell>>
    ensures { result ≡ [] }
{
    Ghost::<Items<Cell>>::of::<(), NoCells>(&())
}

/// Ends the block in hand where it is full. Without memory for it nothing changes.
fn end_full(ended: &mut EndedBlocks, block: &mut Blob) -> Result<(), NoMemory>
    requires small { IsSmall block.old }
    requires first { HasFirstKey block.old }
    ensures ok { OnOk result (IsEnded ended.old block.old ended.new block.new) }
    ensures err { OnErr result ((ended.new ≡ ended.old) × (block.new ≡ block.old)) }
{
    if block.len() < BLOCK_SIZE {
        return Ok(());
    }
    ended.end(block.as_slice())?;
    block.truncate(0);
    Ok(())
}

/// The data blocks of cells: those that are ended, and the one in hand. A contract sees the cells.
#[derive(Drop)]
pub struct DataBlocks {
    ended: EndedBlocks,
    /// The content of the block in hand.
    block: Blob,
    cells: Ghost<Items<Cell>>,
}

impl Model for DataBlocks {
    ghost use Rattle.std.specs.Prelude.{List};
    ghost use Rattle.hb_cell.specs.declared.cell.Cell.{Cell};
    ghost use Rattle.hfile_write.specs.Ended.{IsWritten};

    ghost Value = { List Cell };

    ghost view = { λ d. d.cells };

    ghost invariant = { λ d. IsWritten d.cells d.ended d.block };
}

impl DataBlocks {
    /// No cells.
    pub fn new(alloc: Global) -> DataBlocks
        ensures { result ≡ [] }
    {
        DataBlocks {
            ended: EndedBlocks::new(alloc),
            block: Blob::from_vec(Vec::new(alloc)),
            cells: no_cells(),
        }
    }

    /// The allocator that the blocks are kept by.
    pub fn allocator(&self) -> Global {
        self.block.allocator()
    }

    /// Adds a cell behind the others. Without memory for it nothing changes.
    pub fn put(&mut self, cell: &Cell) -> Result<(), NoMemory>
        requires { IsCell cell.now }
        ensures ok { OnOk result (self.new ≡ self.old ++ cell.now ∷ []) }
        ensures err { OnErr result (self.new ≡ self.old) }
    {
        let len = self.block.len();
        encode_cell(&mut self.block, cell, true)?;
        match end_full(&mut self.ended, &mut self.block) {
            Ok(()) => {
                self.cells = with_one(&self.cells, cell);
                Ok(())
            }
            Err(full) => {
                self.block.truncate(len);
                Err(full)
            }
        }
    }

    /// Ends the block in hand, where it has a cell.
    pub fn finish(self) -> Result<EndedBlocks, NoMemory>
        ensures { IfOk result (λ ended. ended ≡ ended_of (blocks_of self)) }
    {
        let DataBlocks {
            mut ended,
            block,
            cells: _,
        } = self;
        if block.is_empty() {
            return Ok(ended);
        }
        ended.end(block.as_slice())?;
        Ok(ended)
    }
}
