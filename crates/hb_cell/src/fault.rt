//! Why a cell could not be read.
ghost use Rattle.std.specs.Prelude.{◌≡◌};
ghost use Rattle.hb_cell.specs.declared.fault.CellError.TheVariants.{NoMemory};

use std::alloc::AllocError;
use thiserror::Error;

/// What is wrong with a stored cell, in the order in which it is looked for.
#[derive(Clone, Copy, Debug, PartialEq, Eq, Error)]
pub enum CellError {
    /// At least so many bytes of the cell are missing.
    #[error("{0} bytes of the cell are missing at least")]
    Short(usize),
    /// The row is empty or too long.
    #[error("the row is empty or too long")]
    RowLength,
    /// The family is empty or too long, the key is too short for its parts, or the qualifier is too long.
    #[error("the key does not hold its parts")]
    FamilyLength,
    /// The type code is of no kind.
    #[error("{0} is the code of no kind")]
    Kind(u8),
    /// The timestamp is above its limit.
    #[error("the timestamp is above its limit")]
    Timestamp,
    /// The value is too long.
    #[error("the value is too long")]
    ValueLength,
    /// The sequence number is negative, or spelled too long.
    #[error("the sequence number is negative or spelled too long")]
    Sequence,
    /// No memory was left.
    #[error("no memory was left")]
    NoMemory,
}

impl From<AllocError> for CellError {
    ghost from_gives = { λ _ e. e ≡ NoMemory };

    fn from(_e: AllocError) -> CellError {
        CellError::NoMemory
    }
}
