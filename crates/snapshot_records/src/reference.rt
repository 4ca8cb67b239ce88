//! Halves of files after a split.

use hb_wire::{Blob, Copied, NoMemory};

/// One half of a file: the row at which it was split, and whether the half is the one from that row on, the top, or
/// the one before it. Source: HBase `Reference`.
#[derive(Debug, Drop, PartialEq, Eq)]
pub struct Reference {
    pub row: Blob,
    pub top: bool,
}

impl Copied for Reference {
    fn copy(&self) -> Result<Reference, NoMemory> {
        Ok(Reference {
            row: self.row.copy()?,
            top: self.top,
        })
    }
}
