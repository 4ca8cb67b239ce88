//! What of an HFile the index did not list yet.
ghost use Rattle.std.specs.Prelude.{◌≡◌, ◌+◌, Ok, IfErr, OnOk};
ghost use Rattle.hfile_form.specs.Index.{lists_next, names_node, kind_above, without};
ghost use Rattle.hfile_read.specs.Answers.{Finds, IsWrong};
ghost use Rattle.hfile_read.specs.Views.{node_view, left_view, count_left};

use crate::front::ReadNode;
use crate::key::fits_at;
use hb_cell::Cell;
use hfile_block::Magic;
use hfile_form::DataBlock;
use hfile_index::{BadIndex, IndexEntry};
use std::collections::BTreeMap;

/// The nodes that no entry named yet, and the data blocks that none listed.
#[derive(Drop)]
pub struct ReadLeft<'a> {
    pub nodes: BTreeMap<u64, ReadNode<'a>>,
    pub datas: &'a [DataBlock],
}

/// Whether the nodes of this kind have so many levels below them.
fn is_kind_above(more: u64, magic: Magic) -> bool
    ensures { result ≡ kind_above more magic }
{
    match magic {
        Magic::Leaf => more == 0,
        Magic::Intermediate => more > 0,
        _ => false,
    }
}

impl<'a> ReadLeft<'a> {
    /// Takes the next data block out, where an entry of the node at a place lists it.
    pub fn list_next(
        &mut self,
        cells: &[Cell],
        owner: u64,
        entry: &IndexEntry,
    ) -> Result<(), BadIndex>
        ensures ok { OnOk result (lists_next cells.now owner entry.now (left_view self.old).nodes (left_view self.old).datas
            ≡ Ok (left_view self.new)) }
        ensures wrong { IfErr result (λ e. IsWrong e (lists_next cells.now owner entry.now (left_view self.old).nodes (left_view self.old).datas)) }
        ensures fewer { OnOk result (count_left self.new + 1 ≡ count_left self.old) }
    {
        let [next, rest @ ..] = self.datas else {
            return Err(BadIndex::BadIndex(owner));
        };
        if entry.offset == next.at
            && entry.size as u64 == next.size
            && fits_at(cells, entry, next)
        {
            self.datas = rest;
            Ok(())
        } else {
            Err(BadIndex::BadIndex(owner))
        }
    }

    /// Takes a node out, where an entry of the node at a place names it: one with so many levels below it.
    pub fn name_node(
        &mut self,
        cells: &[Cell],
        more: u64,
        owner: u64,
        entry: &IndexEntry,
    ) -> Result<ReadNode<'a>, BadIndex>
        ensures exact { Finds node_view result (names_node cells.now more owner entry.now ((left_view self.old).nodes entry.now.offset)
            (left_view self.old).datas) }
        ensures without { OnOk result (left_view self.new ≡ without entry.now.offset (left_view self.old)) }
        ensures fewer { OnOk result (count_left self.new + 1 ≡ count_left self.old) }
    {
        let Some(node) = self.nodes.remove(&entry.offset) else {
            return Err(BadIndex::BadIndex(owner));
        };
        let [next, ..] = self.datas else {
            return Err(BadIndex::BadIndex(owner));
        };
        if entry.size as u64 == node.size
            && is_kind_above(more, node.magic)
            && fits_at(cells, entry, next)
        {
            Ok(node)
        } else {
            Err(BadIndex::BadIndex(owner))
        }
    }
}
