//! The index that is written.

use hb_wire::{Blob, Items};

/// The contents of the nodes of an index, as they are written behind the blocks that it lists. Source: HBase
/// `HFileBlockIndex`.
#[derive(Debug, PartialEq, Eq, Drop)]
pub struct WrittenIndex {
    /// The leaf nodes, in order; none where the root lists the blocks.
    pub leaves: Items<Blob>,
    /// The intermediate nodes, in order, the lowest level first.
    pub intermediates: Items<Blob>,
    /// The root, with the middle key where there is one.
    pub root: Blob,
    /// How many entries the root has.
    pub count: u64,
    /// How many levels there are, with the root's.
    pub levels: u64,
}
