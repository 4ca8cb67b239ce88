//! Fields as they are met.
ghost use Rattle.std.specs.Prelude.{◌≡◌, ℕ, List, take, drop, IfOk, IfErr};
ghost use Rattle.wire_fields.specs.Fields.{Part, number, text, part_of};
ghost use Rattle.field_reader.specs.Faults.{IsAt, IsNoNumber, IsNoText, value_len as len_of_value};

use crate::RecordError;
use wire_fields::FieldValue;

/// A field that was met: its value, the place of its first byte, and that of the first byte of its value, where the
/// value is bytes.
#[derive(Clone, Copy, Debug, PartialEq, Eq)]
pub struct Met {
    pub value: FieldValue,
    pub at: u64,
    pub inside: u64,
}

/// The number that a field's value is.
pub fn met_number(bytes: &[u8], met: &Met) -> Result<u64, RecordError>
    ensures found { IfOk result (λ n. part_of bytes.now met.now.value ≡ number n) }
    ensures fault { IfErr result (λ e. IsAt met.now.at e × IsNoNumber (part_of bytes.now met.now.value)) }
{
    match met.value {
        FieldValue::Varint(value) => Ok(value),
        _ => Err(RecordError::BadRecord(met.at)),
    }
}

/// So many bytes from a place on, or as many as there are.
fn text_at(bytes: &[u8], from: usize, len: usize) -> &[u8]
    ensures { result.now ≡ take len (drop from bytes.now) }
{
    let (_, rest) = bytes.split_at(from.min(bytes.len()));
    let (text, _) = rest.split_at(len.min(rest.len()));
    text
}

/// How many bytes a value has that are told by their place.
pub(crate) fn value_len(bytes: &[u8], value: FieldValue) -> usize
    ensures { result ≡ len_of_value (part_of bytes.now value) }
{
    match value {
        FieldValue::Bytes { from, len } => text_at(bytes, from, len).len(),
        _ => 0,
    }
}

/// The bytes that a field's value is.
pub fn met_text<'a>(bytes: &'a [u8], met: &Met) -> Result<&'a [u8], RecordError>
    ensures found { IfOk result (λ t. part_of bytes.now met.now.value ≡ text t.now) }
    ensures fault { IfErr result (λ e. IsAt met.now.at e × IsNoText (part_of bytes.now met.now.value)) }
{
    match met.value {
        FieldValue::Bytes { from, len } => Ok(text_at(bytes, from, len)),
        _ => Err(RecordError::BadRecord(met.at)),
    }
}
