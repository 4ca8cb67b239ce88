//! The walk over a message's fields.
ghost use Rattle.std.specs.Prelude.{◌≡◌, ℕ, List, ◌^◌, ◌+◌, ◌<◌, length, IfOk, IfErr};
ghost use Rattle.wire_fields.specs.Fields.{Part};
ghost use Rattle.wire_fields.specs.Message.{IsMessage};
ghost use Rattle.field_reader.specs.Faults.{FieldsFault};

use crate::met::value_len;
use crate::{Fields, Met, RecordError};
use std::alloc::Global;
use wire_fields::get_field;

/// What the fields of a message spell, which stands at a place, or the first fault in the order of its bytes.
///
/// An inner message is read where it is met. Source: Protocol Buffers, Encoding, Message Structure.
pub fn read_fields<S: Fields>(alloc: Global, bytes: &[u8], place: u64) -> Result<S, RecordError>
    requires { place + length bytes.now < 2 ^ 64 }
    ensures found { IfOk result (λ s. (parts : List (ℕ × Part)) × IsMessage bytes.now parts × S.rules parts s) }
    ensures fault { IfErr result (FieldsFault S.rules S.wrong bytes.now place) }
{
    let mut fields = S::start(alloc);
    let mut at = 0;
    while at < bytes.len() {
        let Ok((field, used)) = get_field(bytes, at) else {
            return Err(RecordError::BadRecord(place + at as u64));
        };
        let here = place + at as u64;
        let met = Met {
            value: field.value,
            at: here,
            inside: here + (used - value_len(bytes, field.value)) as u64,
        };
        fields.add(alloc, bytes, field.number, &met)?;
        at += used;
    }
    Ok(fields)
}
