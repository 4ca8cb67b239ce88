//! The other nodes of an index.
ghost use Rattle.std.specs.Prelude.{◌≡◌, ◌≤◌, ◌+◌, ◌*◌, length, option_map};
ghost use Rattle.hfile_index.specs.Entries.{node_entry_at, node_entries_at, node_at, Gives};

use crate::entry::{ReadEntry, entry_of, number_at, offset_at};
use crate::{BadIndex, IndexEntry};
use hb_wire::{Blob, Items};
use std::alloc::Global;

/// The entry at the front, by the table of where the entries begin, and the bytes behind it.
#[tactic(auto, unfolding(crate::specs::Entries::node_entry_at))]
fn node_entry_at<'a>(table: &[u8], bytes: &'a [u8]) -> Option<(ReadEntry<'a>, &'a [u8])>
    requires { 8 ≤ length table.now }
    ensures { option_map (λ x. (record { offset = x.0.offset; size = x.0.size; key = x.0.key.now }, x.1.now)) result
        ≡ node_entry_at table.now bytes.now }
{
    let from = number_at(table) as usize;
    let (_, ends) = table.split_at(4);
    let next = number_at(ends) as usize;
    if next < from + 12 || bytes.len() < next - from {
        return None;
    }
    let len = next - from;
    let (_, behind) = bytes.split_at(8);
    let (_, key) = bytes.split_at(12);
    let (key, _) = key.split_at(len - 12);
    let (_, rest) = bytes.split_at(len);
    let entry = entry_of(offset_at(bytes), number_at(behind), key)?;
    Some((entry, rest))
}

/// The entries of a node, so many, to the end of the bytes.
fn entries_at(
    alloc: Global,
    table: &[u8],
    bytes: &[u8],
    count: u32,
) -> Result<Vec<IndexEntry>, BadIndex>
    requires { 4 + 4 * count ≤ length table.now }
    ensures { Gives (λ x. x.items) result (node_entries_at count table.now bytes.now) }
{
    let mut entries = Vec::new(alloc);
    let mut places = table;
    let mut rest = bytes;
    let mut left = count;
    while left > 0 {
        let Some((entry, behind)) = node_entry_at(places, rest) else {
            return Err(BadIndex::BadIndex(0));
        };
        entries.push(IndexEntry {
            offset: entry.offset,
            size: entry.size,
            key: Blob::copy_of(alloc, entry.key)?,
        })?;
        let (_, ends) = places.split_at(4);
        places = ends;
        rest = behind;
        left -= 1;
    }
    if rest.is_empty() {
        Ok(entries)
    } else {
        Err(BadIndex::BadIndex(0))
    }
}

/// The entries in the content of a leaf or an intermediate node.
///
/// Source: HBase Reference Guide, HFile format, block index; `HFileBlockIndex`.
#[tactic(auto, unfolding(crate::specs::Entries::node_at))]
pub fn node_entries(alloc: Global, content: &[u8]) -> Result<Items<IndexEntry>, BadIndex>
    // Which entries they are, or that it is no node.
    ensures exact { Gives (λ x. x) result (node_at content.now) }
{
    if content.len() < 8 {
        return Err(BadIndex::BadIndex(0));
    }
    let count = number_at(content);
    let (_, table) = content.split_at(4);
    let from = 8 + 4 * count as usize;
    if content.len() < from || number_at(table) != 0 {
        return Err(BadIndex::BadIndex(0));
    }
    let (_, bytes) = content.split_at(from);
    Ok(Items::from_vec(entries_at(alloc, table, bytes, count)?))
}
