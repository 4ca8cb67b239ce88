//! Data blocks that are ended.
ghost use Rattle.std.specs.Prelude.{◌≡◌, ◌≤◌, ◌+◌, length, take, drop, OnOk, OnErr};
ghost use Rattle.hb_wire.specs.Fixed.{be_number};
ghost use Rattle.hfile_index.specs.Short.{IsSmall};
ghost use Rattle.hfile_write.specs.Ended.{key_in, HasFirstKey, with_block, none_ended};

use crate::chain::put_block;
use crate::summary::more;
use byteorder::{BigEndian, ByteOrder};
use hb_wire::{Blob, NoMemory};
use hfile_block::Magic;
use hfile_index::{IndexBuilder, IndexEntry};
use std::alloc::Global;

/// Data blocks that are ended, and the index that lists them.
#[derive(Debug, Drop)]
pub struct EndedBlocks {
    /// The blocks, one after another.
    pub file: Blob,
    pub index: IndexBuilder,
    /// The place of the last block.
    pub last_at: Option<u64>,
    /// How many bytes their contents have.
    pub total: u64,
}

/// The key of the first cell in a block's content.
#[tactic(auto, unfolding(hb_wire::specs::Fixed::be_number))]
pub fn key_in(content: &[u8]) -> &[u8]
    requires { HasFirstKey content.now }
    ensures { result.now ≡ key_in content.now }
{
    let len = BigEndian::read_u32(content) as usize;
    let (_, behind) = content.split_at(8);
    let (key, _) = behind.split_at(len);
    key
}

impl EndedBlocks {
    /// No blocks.
    pub fn new(alloc: Global) -> EndedBlocks
        ensures { result ≡ none_ended }
    {
        EndedBlocks {
            file: Blob::from_vec(Vec::new(alloc)),
            index: IndexBuilder::new(alloc),
            last_at: None,
            total: 0,
        }
    }

    /// Ends a block of this content. Without memory for it nothing changes.
    pub fn end(&mut self, content: &[u8]) -> Result<(), NoMemory>
        requires small { IsSmall content.now }
        requires first { HasFirstKey content.now }
        ensures ok { OnOk result (self.new ≡ with_block self.old content.now (key_in content.now)) }
        ensures err { OnErr result (self.new ≡ self.old) }
    {
        let at = self.file.len();
        let total = more(self.total, content.len())?;
        let entry = IndexEntry {
            offset: at as u64,
            size: 33 + content.len() as u32,
            key: Blob::copy_of(self.file.allocator(), key_in(content))?,
        };
        put_block(&mut self.file, Magic::Data, content, self.last_at)?;
        if let Err(full) = self.index.add(entry) {
            self.file.truncate(at);
            return Err(full);
        }
        self.last_at = Some(at as u64);
        self.total = total;
        Ok(())
    }
}
