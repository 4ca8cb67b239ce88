//! What the blocks before the parts that are loaded on open hold.
ghost use Rattle.std.specs.Prelude.{◌≡◌, ◌≤◌, ◌<◌, ◌+◌, ◌^◌, ℕ, length, false};
ghost use Rattle.hfile_form.specs.declared.section.Section.TheVariants.{Front};
ghost use Rattle.hfile_form.specs.Blocks.{blocks_at};
ghost use Rattle.hfile_form.specs.Front.{no_front, data_role, node_role, taken_as, taken};
ghost use Rattle.hfile_read.specs.Answers.{Gives, Leaves};
ghost use Rattle.hfile_read.specs.Views.{block_view, node_view, nodes_view, front_view};

use crate::block::{ReadBlock, read_block};
use crate::data::add_cells;
use hb_cell::Cell;
use hfile_block::{HEADER_LEN, HFileError, Magic};
use hfile_form::{DataBlock, Section};
use std::alloc::Global;
use std::collections::BTreeMap;

/// A node of the index: its size with its header, its kind and its content.
#[derive(Clone, Copy)]
pub struct ReadNode<'a> {
    pub size: u64,
    pub magic: Magic,
    pub content: &'a [u8],
}

/// What blocks hold: their cells, their data blocks, and the nodes of the index by their places.
#[derive(Drop)]
pub struct ReadFront<'a> {
    pub cells: Vec<Cell>,
    pub datas: Vec<DataBlock>,
    pub nodes: BTreeMap<u64, ReadNode<'a>>,
}

impl<'a> ReadFront<'a> {
    /// What no blocks hold.
    fn new(alloc: Global) -> ReadFront<'a>
        ensures { front_view result ≡ no_front }
    {
        ReadFront {
            cells: Vec::new(alloc),
            datas: Vec::new(alloc),
            nodes: BTreeMap::new(alloc),
        }
    }

    /// Adds what one more block at a place of the file holds, or tells its first fault.
    #[tactic(auto, unfolding(hfile_form::specs::Front::taken))]
    fn take(
        &mut self,
        alloc: Global,
        with_seq: bool,
        at: u64,
        block: ReadBlock<'a>,
    ) -> Result<(), HFileError>
        requires { at + 33 + length block.body.now < 2 ^ 64 }
        ensures { Leaves result (front_view self.new) (taken with_seq at (block_view block.entry) (front_view self.old)) }
    {
        match block.header.magic {
            Magic::Data => self.take_data(alloc, with_seq, at, block),
            Magic::Leaf | Magic::Intermediate => self.take_node(at, block),
            _ => Ok(()),
        }
    }

    /// Adds what a data block holds.
    fn take_data(
        &mut self,
        alloc: Global,
        with_seq: bool,
        at: u64,
        block: ReadBlock<'a>,
    ) -> Result<(), HFileError>
        requires { at + 33 + length block.body.now < 2 ^ 64 }
        ensures { Leaves result (front_view self.new) (taken_as data_role with_seq at (block_view block.entry) (front_view self.old)) }
    {
        let before = self.cells.len();
        let content_at = at + HEADER_LEN as u64;
        add_cells(
            alloc,
            block.content(),
            content_at,
            with_seq,
            &mut self.cells,
        )?;
        let size = block.size();
        self.datas.push(DataBlock { at, size, before })?;
        Ok(())
    }

    /// Adds a node of the index.
    fn take_node(&mut self, at: u64, block: ReadBlock<'a>) -> Result<(), HFileError>
        ensures { Leaves result (front_view self.new) (taken_as node_role false at (block_view block.entry) (front_view self.old)) }
    {
        let node = ReadNode {
            size: block.size(),
            magic: block.header.magic,
            content: block.content(),
        };
        match self.nodes.insert(at, node) {
            Ok(_) => Ok(()),
            Err(_) => Err(HFileError::NoMemory),
        }
    }
}

/// What the blocks hold that stand one after another from the file's first byte on, or the first fault: block by block
/// that of the block itself, and then that of its cells.
pub fn read_front(alloc: Global, bytes: &[u8], with_seq: bool) -> Result<ReadFront<'_>, HFileError>
    ensures { (more : ℕ) → length bytes.now ≤ more
        → Gives front_view result (blocks_at (taken with_seq) Front more 0 bytes.now no_front) }
{
    let mut front = ReadFront::new(alloc);
    let mut at = 0;
    let mut rest = bytes;
    while !rest.is_empty() {
        let block = read_block(Section::Front, rest, at)?;
        front.take(alloc, with_seq, at, block)?;
        let (_, behind) = rest.split_at(block.size() as usize);
        at += block.size();
        rest = behind;
    }
    Ok(front)
}
