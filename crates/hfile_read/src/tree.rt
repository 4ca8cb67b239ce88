//! The index, followed from its root.
ghost use Rattle.std.specs.Prelude.{◌≡◌, ◌+◌, ◌*◌, ◌<◌, ◌++◌, ◌∷◌, [], length, IfOk, IfErr, OnOk};
ghost use Rattle.std.specs.Option.{option_to_list};
ghost use Rattle.hfile_index.specs.declared.fault.BadIndex.TheVariants.{NoMemory};
ghost use Rattle.hfile_index.specs.Entries.{node_at};
ghost use Rattle.hfile_form.specs.Index.{followed, index_from, or_wrong};
ghost use Rattle.hfile_form.specs.File.{index_of, in_index};
ghost use Rattle.hfile_read.specs.Answers.{Finds, Gives, IsWrong};
ghost use Rattle.hfile_read.specs.Views.{block_view, left_view, count_left, front_of};
ghost use Rattle.hfile_read.specs.Following.{below, following, root_entries, index_fault};

use crate::block::ReadBlock;
use crate::left::ReadLeft;
use hb_cell::Cell;
use hb_wire::Items;
use hfile_block::HFileError;
use hfile_index::{BadIndex, IndexEntry, RootNode, node_entries, root_node};
use hfile_meta::Trailer;
use std::alloc::Global;
use std::vec::IntoIter;

/// The entries of a node that were not followed yet: where the node stands, and how many levels are below it.
#[derive(Drop)]
pub struct NodeEntries {
    pub owner: u64,
    pub more: u64,
    pub rest: IntoIter<IndexEntry>,
}

/// The entries of the node at a place.
fn entries_of(alloc: Global, content: &[u8], at: u64) -> Result<Items<IndexEntry>, BadIndex>
    ensures { Finds (λ x. x) result (or_wrong at (node_at content.now)) }
{
    match node_entries(alloc, content) {
        Ok(entries) => Ok(entries),
        Err(BadIndex::BadIndex(_)) => Err(BadIndex::BadIndex(at)),
        Err(BadIndex::NoMemory) => Err(BadIndex::NoMemory),
    }
}

/// Follows an entry of a node: it lists a data block, or names a node, whose entries are then to be followed.
fn follow(
    alloc: Global,
    cells: &[Cell],
    node: &NodeEntries,
    entry: &IndexEntry,
    left: &mut ReadLeft<'_>,
) -> Result<Option<NodeEntries>, BadIndex>
    ensures ok { IfOk result (λ found. followed cells.now node.now.more node.now.owner entry.now (left_view left.old) ≡ below cells.now found (left_view left.new)) }
    ensures wrong { IfErr result (λ e. IsWrong e (followed cells.now node.now.more node.now.owner entry.now (left_view left.old))) }
    ensures fewer { OnOk result (count_left left.new + 1 ≡ count_left left.old) }
{
    if node.more == 0 {
        left.list_next(cells, node.owner, entry)?;
        return Ok(None);
    }
    let more = node.more - 1;
    let named = left.name_node(cells, more, node.owner, entry)?;
    let entries = entries_of(alloc, named.content, entry.offset)?;
    Ok(Some(NodeEntries {
        owner: entry.offset,
        more,
        rest: entries.into_vec().into_iter(),
    }))
}

/// Opens the entries of a node, where there is one.
fn open_some(nodes: &mut Vec<NodeEntries>, found: Option<NodeEntries>) -> Result<(), BadIndex>
    ensures ok { OnOk result (nodes.new.items ≡ nodes.old.items ++ option_to_list found) }
    ensures err { IfErr result (λ e. e ≡ NoMemory) }
{
    if let Some(found) = found {
        nodes.push(found)?;
    }
    Ok(())
}

/// Follows the next entry of a node that was taken from the open ones.
fn follow_next(
    alloc: Global,
    cells: &[Cell],
    node: NodeEntries,
    nodes: &mut Vec<NodeEntries>,
    left: &mut ReadLeft<'_>,
) -> Result<(), BadIndex>
    ensures ok { OnOk result (following cells.now (nodes.old.items ++ node ∷ []) (left_view left.old)
        ≡ following cells.now nodes.new.items (left_view left.new)) }
    ensures wrong { IfErr result (λ e. IsWrong e (following cells.now (nodes.old.items ++ node ∷ []) (left_view left.old))) }
    ensures fewer { OnOk result (2 * count_left left.new + length nodes.new.items < 2 * count_left left.old + length nodes.old.items + 1) }
{
    let mut node = node;
    let Some(entry) = node.rest.next() else {
        return Ok(());
    };
    let found = follow(alloc, cells, &node, &entry, left)?;
    nodes.push(node)?;
    open_some(nodes, found)
}

/// Follows the entries of a root with so many levels below it: what they leave, or the place of the first node that is
/// wrong.
fn follow_all<'a>(
    alloc: Global,
    cells: &[Cell],
    root: NodeEntries,
    left: ReadLeft<'a>,
) -> Result<ReadLeft<'a>, BadIndex>
    ensures { Finds left_view result (following cells.now (root ∷ []) (left_view left.entry)) }
{
    let mut left = left;
    let mut nodes = Vec::new(alloc);
    nodes.push(root)?;
    while let Some(node) = nodes.pop() {
        follow_next(alloc, cells, node, &mut nodes, &mut left)?;
    }
    Ok(left)
}

/// The entries of the root. Only one of more than one level has a middle key.
fn root_of(alloc: Global, trailer: &Trailer, content: &[u8]) -> Result<Items<IndexEntry>, BadIndex>
    ensures { Finds (λ x. x) result (root_entries trailer.now content.now) }
{
    let wrong = BadIndex::BadIndex(trailer.load_at);
    if trailer.data_count > u32::MAX as u64 {
        return Err(wrong);
    }
    match root_node(alloc, content, trailer.data_count as u32) {
        Ok(RootNode { entries, middle }) => {
            if middle && trailer.levels == 1 {
                Err(wrong)
            } else {
                Ok(entries)
            }
        }
        Err(BadIndex::BadIndex(_)) => Err(wrong),
        Err(BadIndex::NoMemory) => Err(BadIndex::NoMemory),
    }
}

/// Whether the index lists the data blocks that are left, exactly and in order, or the place of the first node that is
/// wrong.
fn list_all(
    alloc: Global,
    trailer: &Trailer,
    entries: Items<IndexEntry>,
    cells: &[Cell],
    left: ReadLeft<'_>,
) -> Result<(), BadIndex>
    ensures { Finds (λ _. tt) result (index_from cells.now trailer.now.levels trailer.now.load_at entries (left_view left.entry)) }
{
    let owner = trailer.load_at;
    if trailer.levels == 0 {
        return Err(BadIndex::BadIndex(owner));
    }
    let root = NodeEntries {
        owner,
        more: trailer.levels - 1,
        rest: entries.into_vec().into_iter(),
    };
    let left = follow_all(alloc, cells, root, left)?;
    if left.datas.is_empty() {
        Ok(())
    } else {
        Err(BadIndex::BadIndex(owner))
    }
}

/// The fault of a file, for what was wrong with its index.
fn as_fault(fault: BadIndex) -> HFileError
    ensures { result ≡ index_fault fault }
{
    match fault {
        BadIndex::BadIndex(at) => HFileError::BadIndex(at),
        BadIndex::NoMemory => HFileError::NoMemory,
    }
}

/// Whether the root leads through its levels to the data blocks that are left, exactly and in order, or the place of the
/// first node that is wrong.
fn list_index(
    alloc: Global,
    trailer: &Trailer,
    root: ReadBlock<'_>,
    cells: &[Cell],
    left: ReadLeft<'_>,
) -> Result<(), BadIndex>
    ensures { Finds (λ _. tt) result (index_of trailer.now (block_view root.entry) (front_of cells.now (left_view left.entry))) }
{
    let entries = root_of(alloc, trailer, root.content())?;
    list_all(alloc, trailer, entries, cells, left)
}

/// Whether the root leads through its levels to the data blocks that are left, exactly and in order.
///
/// The fault is the place of the first node that is not in its form or has a wrong entry, each before what it lists;
/// that of the root, where only entries are missing at the end.
pub fn check_index(
    alloc: Global,
    trailer: &Trailer,
    root: ReadBlock<'_>,
    cells: &[Cell],
    left: ReadLeft<'_>,
) -> Result<(), HFileError>
    ensures { Gives (λ _. tt) result (in_index (index_of trailer.now (block_view root.entry) (front_of cells.now (left_view left.entry)))) }
{
    match list_index(alloc, trailer, root, cells, left) {
        Ok(()) => Ok(()),
        Err(fault) => Err(as_fault(fault)),
    }
}
