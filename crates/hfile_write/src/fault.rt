//! Why a cell was not taken.
ghost use Rattle.std.specs.Prelude.{◌≡◌};
ghost use Rattle.hfile_write.specs.declared.fault.AddError.TheVariants.{NoMemory};

use std::alloc::AllocError;
use thiserror::Error;

/// Why a cell was not added to a file.
#[derive(Clone, Copy, Debug, PartialEq, Eq, Error)]
pub enum AddError {
    /// The cell does not stand above the last one.
    #[error("the cell is not above the last one")]
    NotAscending,
    /// No memory was left.
    #[error("no memory was left")]
    NoMemory,
}

impl From<AllocError> for AddError {
    ghost from_gives = { λ _ e. e ≡ NoMemory };

    fn from(_e: AllocError) -> AddError {
        AddError::NoMemory
    }
}
