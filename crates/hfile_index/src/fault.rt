//! Why a node of an index could not be read.
ghost use Rattle.std.specs.Prelude.{◌≡◌};
ghost use Rattle.hfile_index.specs.declared.fault.BadIndex.TheVariants.{NoMemory};

use std::alloc::{AllocError, AllocFailed};
use thiserror::Error;

/// What is wrong with a node of an index.
#[derive(Clone, Copy, Debug, PartialEq, Eq, Error)]
pub enum BadIndex {
    /// The node at this place is not in its form.
    #[error("the index block at {0} is wrong")]
    BadIndex(u64),
    /// No memory was left.
    #[error("no memory was left")]
    NoMemory,
}

impl From<AllocError> for BadIndex {
    ghost from_gives = { λ _ e. e ≡ NoMemory };

    fn from(_e: AllocError) -> BadIndex {
        BadIndex::NoMemory
    }
}

impl<T: Drop> From<AllocFailed<T>> for BadIndex {
    ghost from_gives = { λ _ e. e ≡ NoMemory };

    fn from(_e: AllocFailed<T>) -> BadIndex {
        BadIndex::NoMemory
    }
}
