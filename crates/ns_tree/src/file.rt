//! What a store keeps at a place.
use crate::file_bytes::FileBytes;
use hb_wire::{Copied, NoMemory};

/// A file: its bytes, and its moment in milliseconds.
#[derive(Drop)]
pub struct FileState {
    pub bytes: FileBytes,
    pub moment: u64,
}

impl Copied for FileState {
    fn copy(&self) -> Result<FileState, NoMemory> {
        Ok(FileState {
            bytes: self.bytes.copy()?,
            moment: self.moment,
        })
    }
}

/// What a store says of a file without its bytes: how many there are, and its moment in milliseconds.
#[derive(Clone, Copy, Debug, PartialEq, Eq)]
pub struct Stat {
    pub size: u64,
    pub moment: u64,
}
