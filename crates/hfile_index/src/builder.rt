//! An index that is built entry by entry.
ghost use Rattle.std.specs.Prelude.{◌≡◌, ◌≤◌, ◌<◌, ◌++◌, ◌∷◌, [], Some, length, IfOk, OnOk, OnErr};
ghost use Rattle.hfile_index.specs.Short.{HaveShortKeys, HasSmallNodes};
ghost use Rattle.hfile_index.specs.Written.{listed_end, end_from, middle_in, middle_bytes, flat_index, deep_index, index_of};

use crate::content::root_content;
use crate::level::{Level, NODE_ENTRIES, behind, level_over, levels_above};
use crate::{IndexEntry, WrittenIndex};
use hb_wire::{Blob, Items, NoMemory, put_u32, put_u64};
use std::alloc::Global;
use std::marker::Model;

/// The greatest length of an index key: that of a cell's.
pub const MAX_KEY: usize = 65_673;

/// The entries of an index that is to be written. A contract sees it as their list.
#[derive(Debug, Drop)]
pub struct IndexBuilder {
    entries: Vec<IndexEntry>,
}

impl Model for IndexBuilder {
    ghost use Rattle.std.specs.Prelude.{List};
    ghost use Rattle.hfile_index.specs.declared.entry.IndexEntry.{IndexEntry};
    ghost use Rattle.hfile_index.specs.Short.{HaveShortKeys};

    ghost Value = { List IndexEntry };

    ghost view = { λ builder. builder.entries.items };

    ghost invariant = { λ builder. HaveShortKeys builder.entries.items };
}

impl IndexBuilder {
    /// An index of no entries. It takes no memory until one is added.
    pub fn new(alloc: Global) -> IndexBuilder
        ensures { result ≡ [] }
    {
        IndexBuilder {
            entries: Vec::new(alloc),
        }
    }

    /// Adds an entry behind the others. Without memory for it nothing changes.
    pub fn add(&mut self, entry: IndexEntry) -> Result<(), NoMemory>
        requires { length entry.key ≤ MAX_KEY }
        ensures ok { OnOk result (self.new ≡ self.old ++ entry ∷ []) }
        ensures err { OnErr result (self.new ≡ self.old) }
    {
        self.entries.push(entry)?;
        Ok(())
    }

    /// The index of these entries, whose nodes stand behind the last block that is listed: at most 128 entries a node.
    ///
    /// Source: HBase Reference Guide, HFile format, block index; `HFileBlockIndex`.
    #[tactic(auto, unfolding(crate::specs::Written::index_of))]
    pub fn finish(self) -> Result<WrittenIndex, NoMemory>
        ensures exact { IfOk result (λ index. index ≡ index_of self) }
        ensures small { IfOk result (λ index. HasSmallNodes index) }
    {
        let alloc = *self.entries.allocator();
        if self.entries.len() <= NODE_ENTRIES {
            flat_index(alloc, self.entries.as_slice())
        } else {
            deep_index(alloc, self.entries.as_slice())
        }
    }
}

/// The index whose root lists the blocks.
fn flat_index(alloc: Global, entries: &[IndexEntry]) -> Result<WrittenIndex, NoMemory>
    requires { HaveShortKeys entries.now }
    ensures { IfOk result (λ index. index ≡ flat_index entries.now) }
{
    Ok(WrittenIndex {
        leaves: Items::new(alloc),
        intermediates: Items::new(alloc),
        root: root_content(alloc, entries)?,
        count: entries.len() as u64,
        levels: 1,
    })
}

/// The place behind the last block that is listed.
fn listed_end(entries: &[IndexEntry]) -> u64
    ensures { result ≡ listed_end entries.now }
{
    match entries {
        [] => 0,
        [.., last] => behind(last.offset, last.size),
    }
}

/// The middle key whose entry has this number in a leaf node.
fn leaf_key(alloc: Global, leaf: &IndexEntry, number: u32) -> Result<Blob, NoMemory>
    ensures { IfOk result (λ bytes. bytes ≡ middle_in (Some leaf.now) number) }
{
    let mut bytes = Blob::from_vec(Vec::new(alloc));
    put_u64(&mut bytes, leaf.offset)?;
    put_u32(&mut bytes, leaf.size)?;
    put_u32(&mut bytes, number)?;
    Ok(bytes)
}

/// The middle key of so many entries, by the names of the leaf nodes.
#[tactic(auto, unfolding(crate::specs::Written::middle_bytes))]
fn middle_key(alloc: Global, leaves: &[IndexEntry], entries: usize) -> Result<Blob, NoMemory>
    requires { 0 < entries }
    ensures { IfOk result (λ bytes. bytes ≡ middle_bytes leaves.now entries) }
{
    let middle = (entries - 1) / 2;
    match leaves.get(middle / NODE_ENTRIES) {
        None => Ok(Blob::from_vec(Vec::new(alloc))),
        Some(leaf) => leaf_key(alloc, leaf, (middle % NODE_ENTRIES) as u32),
    }
}

/// The index of more levels than one.
fn deep_index(alloc: Global, entries: &[IndexEntry]) -> Result<WrittenIndex, NoMemory>
    requires short { HaveShortKeys entries.now }
    requires more { 128 < length entries.now }
    ensures { IfOk result (λ index. index ≡ deep_index (listed_end entries.now) entries.now) }
{
    let leaves = level_over(alloc, listed_end(entries), entries)?;
    let middle = middle_key(alloc, leaves.names.as_slice(), entries.len())?;
    let Level { nodes, names, end } = leaves;
    let upper = levels_above(alloc, end, names)?;
    let mut root = root_content(alloc, upper.root.as_slice())?;
    root.add(middle.as_slice())?;
    Ok(WrittenIndex {
        leaves: Items::from_vec(nodes),
        intermediates: Items::from_vec(upper.nodes),
        root,
        count: upper.root.len() as u64,
        levels: 2 + upper.below,
    })
}
