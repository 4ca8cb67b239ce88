//! Where data blocks stand.

/// A data block: its place in the file, its size in bytes with its header, and how many cells stand before it.
#[derive(Clone, Copy, Debug, PartialEq, Eq)]
pub struct DataBlock {
    pub at: u64,
    pub size: u64,
    pub before: usize,
}
