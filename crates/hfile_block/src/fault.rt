//! Why an HFile could not be read.
ghost use Rattle.std.specs.Prelude.{◌≡◌};
ghost use Rattle.hfile_block.specs.declared.fault.HFileError.TheVariants.{NoMemory};

use hb_cell::CellError;
use std::alloc::{AllocError, AllocFailed};
use thiserror::Error;

/// What is wrong with an HFile. A place is counted from the file's first byte.
#[derive(Clone, Copy, Debug, PartialEq, Eq, Error)]
pub enum HFileError {
    /// The trailer that begins at this place is not in its form; or the file's length, where it is too short for one.
    #[error("the trailer at {0} is not in its form")]
    BadTrailer(u64),
    /// The file is of this major version, which is not read.
    #[error("version {0} is not read")]
    Version(u32),
    /// The blocks are compressed by this code's method.
    #[error("the blocks are compressed by method {0}")]
    Compressed(u32),
    /// The index block at this place is not in its form, or has a wrong entry.
    #[error("the index block at {0} is wrong")]
    BadIndex(u64),
    /// The file info at this place is not in its form.
    #[error("the file info at {0} is wrong")]
    BadInfo(u64),
    /// The data blocks are encoded.
    #[error("the data blocks are encoded")]
    Encoded,
    /// The block at this place has no magic that may stand there.
    #[error("the block at {0} has the wrong magic")]
    Magic(u64),
    /// The sizes of the block at this place do not agree.
    #[error("the sizes of the block at {0} do not agree")]
    Size(u64),
    /// This code is of no checksum type.
    #[error("{0} is the code of no checksum type")]
    Checksum(u8),
    /// No cell can be read at this place.
    #[error("the cell at {at}: {cause}")]
    Cell { at: u64, cause: CellError },
    /// The cell at this place is not above the one before it.
    #[error("the cell at {0} is not above the one before it")]
    Order(u64),
    /// The file tells another number of cells than it has.
    #[error("the file tells {written} cells and has {found}")]
    Count { written: u64, found: u64 },
    /// No memory was left.
    #[error("no memory was left")]
    NoMemory,
}

impl From<AllocError> for HFileError {
    ghost from_gives = { λ _ e. e ≡ NoMemory };

    fn from(_e: AllocError) -> HFileError {
        HFileError::NoMemory
    }
}

impl<T: Drop> From<AllocFailed<T>> for HFileError {
    ghost from_gives = { λ _ e. e ≡ NoMemory };

    fn from(_e: AllocFailed<T>) -> HFileError {
        HFileError::NoMemory
    }
}
