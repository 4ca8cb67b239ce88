//! Why bytes are no record.
ghost use Rattle.std.specs.Prelude.{◌≡◌};

use hb_wire::NoMemory;
use thiserror::Error;

/// Why bytes are no record. A place is counted from the first byte that was handed in.
#[derive(Clone, Copy, Debug, PartialEq, Eq, Error)]
pub enum RecordError {
    /// The field that begins at this place is not in its grammar, and no field within it is at fault.
    #[error("the field at {0} is not in its form")]
    BadRecord(u64),
    /// A message lacks the field with this number, the least that it lacks.
    #[error("field {0} is missing")]
    MissingField(u32),
    /// No memory was left.
    #[error("no memory was left")]
    NoMemory,
}

impl From<NoMemory> for RecordError {
    ghost use Rattle.field_reader.specs.declared.fault.RecordError.TheVariants.{NoMemory};

    ghost from_gives = { λ _ error. error ≡ NoMemory };

    fn from(_: NoMemory) -> RecordError {
        RecordError::NoMemory
    }
}
