//! The levels of an index, written.
ghost use Rattle.std.specs.Prelude.{◌≡◌, ◌≤◌, ◌<◌, ◌^◌, ◌++◌, ◌∷◌, [], length, take, drop, map, IfOk, OnOk};
ghost use Rattle.hfile_index.specs.Short.{HaveShortKeys};
ghost use Rattle.hfile_index.specs.Written.{node_bytes, node_count, nodes_of, node_size, behind, first_key, named, end_of, above};
ghost use Rattle.hfile_index.specs.Views.{upper_view};

use crate::IndexEntry;
use crate::content::node_content;
use hb_wire::{Blob, Copied, NoMemory};
use std::alloc::Global;

/// How many entries a node has at most.
pub const NODE_ENTRIES: usize = 128;
/// How many bytes the header of a block takes.
const HEADER_LEN: u32 = 33;

/// The nodes of a level.
#[derive(Drop)]
pub struct Level {
    /// Their contents.
    pub nodes: Vec<Blob>,
    /// The entries that name them.
    pub names: Vec<IndexEntry>,
    /// The place behind the last one.
    pub end: u64,
}

/// How many nodes hold so many entries.
fn node_count(entries: usize) -> usize
    requires { entries < 2 ^ 63 }
    ensures { result ≡ node_count entries }
{
    (entries + 127) / 128
}

/// The place behind so many bytes.
pub fn behind(at: u64, size: u32) -> u64
    ensures { result ≡ behind at size }
{
    at.wrapping_add(size as u64)
}

/// The key of the first entry.
fn first_key(alloc: Global, entries: &[IndexEntry]) -> Result<Blob, NoMemory>
    ensures { IfOk result (λ key. key ≡ first_key entries.now) }
{
    match entries {
        [] => Ok(Blob::from_vec(Vec::new(alloc))),
        [first, ..] => first.key.copy(),
    }
}

impl Level {
    /// Adds a node of these entries behind the others.
    fn add(&mut self, alloc: Global, entries: &[IndexEntry]) -> Result<(), NoMemory>
        requires short { HaveShortKeys entries.now }
        requires few { length entries.now ≤ 128 }
        ensures nodes { OnOk result (self.new.nodes.items ≡ self.old.nodes.items ++ node_bytes entries.now ∷ []) }
        ensures names { OnOk result (self.new.names.items
            ≡ self.old.names.items ++ record { offset = self.old.end; size = node_size entries.now; key = first_key entries.now } ∷ []) }
        ensures end { OnOk result (self.new.end ≡ behind self.old.end (node_size entries.now)) }
    {
        let content = node_content(alloc, entries)?;
        let size = HEADER_LEN + content.len() as u32;
        self.names.push(IndexEntry {
            offset: self.end,
            size,
            key: first_key(alloc, entries)?,
        })?;
        self.nodes.push(content)?;
        self.end = behind(self.end, size);
        Ok(())
    }
}

/// The entries of the next node, and those behind them.
fn split_node(entries: &[IndexEntry]) -> (&[IndexEntry], &[IndexEntry])
    ensures node { result.0.now ≡ take 128 entries.now }
    ensures others { result.1.now ≡ drop 128 entries.now }
    ensures few { length result.0.now ≤ 128 }
{
    if entries.len() <= NODE_ENTRIES {
        (entries, &[])
    } else {
        entries.split_at(NODE_ENTRIES)
    }
}

/// The nodes that hold the entries, one after another from a place on.
pub fn level_over(alloc: Global, at: u64, entries: &[IndexEntry]) -> Result<Level, NoMemory>
    requires { HaveShortKeys entries.now }
    ensures nodes { IfOk result (λ level. level.nodes.items ≡ map node_bytes (nodes_of entries.now)) }
    ensures names { IfOk result (λ level. level.names.items ≡ named at (nodes_of entries.now)) }
    ensures end { IfOk result (λ level. level.end ≡ end_of at (nodes_of entries.now)) }
    ensures short { IfOk result (λ level. HaveShortKeys level.names.items) }
{
    let mut level = Level {
        nodes: Vec::new(alloc),
        names: Vec::new(alloc),
        end: at,
    };
    let mut rest = entries;
    let mut left = node_count(entries.len());
    while left > 0 {
        let (node, others) = split_node(rest);
        level.add(alloc, node)?;
        rest = others;
        left -= 1;
    }
    Ok(level)
}

/// What stands above entries.
#[derive(Drop)]
pub struct Upper {
    /// The contents of the nodes below the root, the lowest level first.
    pub nodes: Vec<Blob>,
    /// The root's entries.
    pub root: Vec<IndexEntry>,
    /// How many levels stand below the root.
    pub below: u64,
}

/// What stands above entries, which name the nodes before a place.
pub fn levels_above(alloc: Global, at: u64, names: Vec<IndexEntry>) -> Result<Upper, NoMemory>
    requires { HaveShortKeys names.items }
    ensures exact { IfOk result (λ upper. upper_view upper ≡ above (length names.items) at names.items) }
    ensures short { IfOk result (λ upper. HaveShortKeys upper.root.items) }
    ensures few { IfOk result (λ upper. upper.below < 2 ^ 63) }
{
    let mut nodes = Vec::new(alloc);
    let mut root = names;
    let mut below = 0;
    let mut at = at;
    'levels: while root.len() > NODE_ENTRIES {
        let mut level = level_over(alloc, at, root.as_slice())?;
        nodes.append(&mut level.nodes)?;
        root = level.names;
        at = level.end;
        below += 1;
    }
    Ok(Upper { nodes, root, below })
}
