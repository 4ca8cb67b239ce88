//! The parts of a file name.

/// The greatest sequence number of a file's cells.
pub const MAX_SEQ: u64 = 9_223_372_036_854_775_807;

/// The parts of a file name: the epoch of the opening at which it was drawn, the counter within that
/// epoch, and the sequence number of the file's cells, if the name gives one.
#[derive(Clone, Copy, Debug, PartialEq, Eq)]
pub struct FileParts {
    pub epoch: u64,
    pub counter: u64,
    pub seq: Option<u64>,
}
