//! What is answered where bytes are no name.

ghost use Rattle.std.specs.Prelude.{◌≡◌};

use hb_wire::NoMemory;
use thiserror::Error;

/// The bytes are no name of the kind. It has the length of the longest prefix of the input that is a
/// prefix of a name of that kind.
#[derive(Clone, Copy, Debug, PartialEq, Eq)]
pub struct BadName(pub usize);

/// Why no name was read.
#[derive(Clone, Copy, Debug, Error)]
pub enum NameError {
    #[error("bad name after {} bytes", .0.0)]
    Bad(BadName),
    #[error("no memory")]
    NoMemory,
}

impl From<BadName> for NameError {
    ghost use Rattle.hb_names.specs.declared.error.NameError.TheVariants.{Bad};

    ghost from_gives = { λ bad error. error ≡ Bad bad };

    fn from(bad: BadName) -> NameError {
        NameError::Bad(bad)
    }
}

impl From<NoMemory> for NameError {
    ghost use Rattle.hb_names.specs.declared.error.NameError.TheVariants.{NoMemory};

    ghost from_gives = { λ _ error. error ≡ NoMemory };

    fn from(_: NoMemory) -> NameError {
        NameError::NoMemory
    }
}
