//! The root of an index.
ghost use Rattle.std.specs.Prelude.{◌≡◌, option_map};
ghost use Rattle.hfile_index.specs.Entries.{counted_at, root_entry_at, root_entries_at, root_entries_of, root_node_at, Gives};

use crate::entry::{ReadEntry, entry_of, number_at, offset_at};
use crate::{BadIndex, IndexEntry};
use hb_wire::{Blob, Items, get_vlong};
use std::alloc::Global;

/// The bytes behind their count at the front, and the bytes behind them.
#[tactic(auto, unfolding(crate::specs::Entries::counted_at))]
fn counted_at(bytes: &[u8]) -> Option<(&[u8], &[u8])>
    ensures { option_map (λ x. (x.0.now, x.1.now)) result ≡ counted_at bytes.now }
{
    match get_vlong(bytes, 0) {
        Ok((len, used)) if len >= 0 => {
            let (_, behind) = bytes.split_at(used);
            if (behind.len() as u64) < len as u64 {
                None
            } else {
                Some(behind.split_at(len as usize))
            }
        }
        _ => None,
    }
}

/// The entry at the front, and the bytes behind it.
#[tactic(auto, unfolding(crate::specs::Entries::root_entry_at))]
fn root_entry_at(bytes: &[u8]) -> Option<(ReadEntry<'_>, &[u8])>
    ensures { option_map (λ x. (record { offset = x.0.offset; size = x.0.size; key = x.0.key.now }, x.1.now)) result
        ≡ root_entry_at bytes.now }
{
    if bytes.len() < 12 {
        return None;
    }
    let (_, behind) = bytes.split_at(8);
    let (_, counted) = bytes.split_at(12);
    let (key, rest) = counted_at(counted)?;
    let entry = entry_of(offset_at(bytes), number_at(behind), key)?;
    Some((entry, rest))
}

/// What stands in a root: its entries, and whether the sixteen bytes of a middle key stand behind them.
#[derive(Debug, Drop)]
pub struct RootNode {
    pub entries: Items<IndexEntry>,
    pub middle: bool,
}

/// The entries at the front, so many, and the bytes behind them.
fn entries_at(
    alloc: Global,
    content: &[u8],
    count: u32,
) -> Result<(Vec<IndexEntry>, &[u8]), BadIndex>
    ensures { Gives (λ x. (x.0.items, x.1.now)) result (root_entries_at count content.now) }
{
    let mut entries = Vec::new(alloc);
    let mut rest = content;
    let mut left = count;
    while left > 0 {
        let Some((entry, behind)) = root_entry_at(rest) else {
            return Err(BadIndex::BadIndex(0));
        };
        entries.push(IndexEntry {
            offset: entry.offset,
            size: entry.size,
            key: Blob::copy_of(alloc, entry.key)?,
        })?;
        rest = behind;
        left -= 1;
    }
    Ok((entries, rest))
}

/// What stands in the content of a root that holds so many entries.
///
/// Nothing is taken by the count before it was read. Source: HBase Reference Guide, HFile format, block index;
/// `HFileBlockIndex`.
#[tactic(auto, unfolding(crate::specs::Entries::root_at))]
pub fn root_node(alloc: Global, content: &[u8], count: u32) -> Result<RootNode, BadIndex>
    // Which entries they are, or that it is no root of so many.
    ensures exact { Gives (λ x. x) result (root_node_at count content.now) }
{
    let (entries, rest) = entries_at(alloc, content, count)?;
    if rest.len() == 0 || rest.len() == 16 {
        Ok(RootNode {
            entries: Items::from_vec(entries),
            middle: rest.len() == 16,
        })
    } else {
        Err(BadIndex::BadIndex(0))
    }
}

/// The entries in the content of a root that holds so many. Behind them nothing stands, or a middle key, which is passed
/// over.
///
/// Source: HBase Reference Guide, HFile format, block index; `HFileBlockIndex`.
pub fn root_entries(
    alloc: Global,
    content: &[u8],
    count: u32,
) -> Result<Items<IndexEntry>, BadIndex>
    // Which entries they are, or that it is no root of so many.
    ensures exact { Gives (λ x. x) result (root_entries_of count content.now) }
{
    match root_node(alloc, content, count) {
        Ok(RootNode { entries, middle: _ }) => Ok(entries),
        Err(fault) => Err(fault),
    }
}
