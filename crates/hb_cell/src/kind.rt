//! What a cell says of its column.
ghost use Rattle.std.specs.Prelude.{◌≡◌};
ghost use Rattle.hb_cell.specs.Kinds.{code, kind_of};

use hb_wire::{Copied, NoMemory};

/// What a cell says: a value, or a marker that hides values. Source: HBase `KeyValue.Type`.
#[derive(Clone, Copy, Debug, PartialEq, Eq)]
pub enum Kind {
    /// A value.
    Put,
    /// Hides the values of a column with one timestamp.
    Delete,
    /// Hides the values of a column up to a timestamp.
    DeleteColumn,
    /// Hides the values of a family up to a timestamp.
    DeleteFamily,
}

impl Kind {
    /// The type code, as a stored key ends with it.
    pub fn code(self) -> u8
        ensures { result ≡ code self }
    {
        match self {
            Kind::Put => 4,
            Kind::Delete => 8,
            Kind::DeleteColumn => 12,
            Kind::DeleteFamily => 14,
        }
    }

    /// The kind of a type code.
    pub fn from_code(code: u8) -> Option<Kind>
        ensures { result ≡ kind_of code }
    {
        match code {
            4 => Some(Kind::Put),
            8 => Some(Kind::Delete),
            12 => Some(Kind::DeleteColumn),
            14 => Some(Kind::DeleteFamily),
            _ => None,
        }
    }
}

impl Copied for Kind {
    fn copy(&self) -> Result<Kind, NoMemory> {
        Ok(*self)
    }
}
