//! Why the trailer or the file info of an HFile could not be read.
ghost use Rattle.std.specs.Prelude.{◌≡◌};
ghost use Rattle.hfile_meta.specs.declared.fault.MetaError.TheVariants.{NoMemory};

use std::alloc::AllocError;
use thiserror::Error;

/// What is wrong with a trailer or a file info. A place is counted from the first byte that was handed in.
#[derive(Clone, Copy, Debug, PartialEq, Eq, Error)]
pub enum MetaError {
    /// The trailer that begins at this place is not in its form; or the file's length, where it is too short for one.
    #[error("the trailer at {0} is not in its form")]
    BadTrailer(u64),
    /// The file is of this major version, which is not read.
    #[error("version {0} is not read")]
    Version(u32),
    /// The blocks are compressed by this code's method.
    #[error("the blocks are compressed by method {0}")]
    Compressed(u32),
    /// The file info at this place is not in its form.
    #[error("the file info at {0} is wrong")]
    BadInfo(u64),
    /// The data blocks are encoded.
    #[error("the data blocks are encoded")]
    Encoded,
    /// No memory was left.
    #[error("no memory was left")]
    NoMemory,
}

impl From<AllocError> for MetaError {
    ghost from_gives = { λ _ e. e ≡ NoMemory };

    fn from(_e: AllocError) -> MetaError {
        MetaError::NoMemory
    }
}
