//! Why no commit file was read.

ghost use Rattle.std.specs.Prelude.{◌≡◌};
ghost use Rattle.commit_line.specs.declared.error.ListError.TheVariants.{BadList, NoMemory};

use std::alloc::{AllocError, AllocFailed};
use thiserror::Error;

/// No text of the kind stands where one is wanted. It has the length of the longest prefix of the file that
/// is a prefix of one which goes on with such a text.
#[derive(Clone, Copy, Debug, PartialEq, Eq)]
pub struct BadText(pub u64);

/// Why no commit file was read.
#[derive(Clone, Copy, Debug, PartialEq, Eq, Error)]
pub enum ListError {
    /// The bytes are no file of the kind: the length of the longest prefix that is a prefix of one.
    #[error("bad commit file after {0} bytes")]
    BadList(u64),
    /// No memory was left.
    #[error("no memory was left")]
    NoMemory,
}

impl From<BadText> for ListError {
    ghost from_gives = { λ bad error. error ≡ BadList bad.0 };

    fn from(bad: BadText) -> ListError {
        ListError::BadList(bad.0)
    }
}

impl From<AllocError> for ListError {
    ghost from_gives = { λ _ error. error ≡ NoMemory };

    fn from(_error: AllocError) -> ListError {
        ListError::NoMemory
    }
}

impl<T: Drop> From<AllocFailed<T>> for ListError {
    ghost from_gives = { λ _ error. error ≡ NoMemory };

    fn from(_error: AllocFailed<T>) -> ListError {
        ListError::NoMemory
    }
}
