//! Rules of values.
ghost use Rattle.std.specs.Prelude.{ℕ, ◌^◌, ◌+◌, ◌<◌, length, IfOk, IfErr};
ghost use Rattle.wire_fields.specs.Fields.{Part, part_of};
ghost use Rattle.field_reader.specs.Faults.{IsInside};
ghost use Rattle.field_reader.specs.declared.fault.RecordError.{RecordError};

use crate::{Met, RecordError};
use std::alloc::Global;

/// What the values of a field spell.
pub trait Rule {
    type Value: Drop;

    /// This value spells that one.
    ghost spells: { Part → Self.Value → Type 0 };

    /// Why a value of a field that stands at a place, and whose bytes stand at another, spells none.
    ghost faults: { Part → ℕ → ℕ → RecordError → Type 0 };

    /// What a value spells, or why it spells none.
    fn read(alloc: Global, bytes: &[u8], met: &Met) -> Result<Self::Value, RecordError>
        requires { IsInside (part_of bytes.now met.now.value) met.now.inside }
        ensures found { IfOk result (spells (part_of bytes.now met.now.value)) }
        ensures fault { IfErr result (faults (part_of bytes.now met.now.value) met.now.at met.now.inside) };
}
