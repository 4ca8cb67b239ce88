//! Messages as lists of fields.
ghost use Rattle.std.specs.Prelude.{◌≡◌, ◌≤◌, ◌<◌, ◌+◌, ℕ, List, length, option_map, Ok, IfOk};
ghost use Rattle.wire_fields.specs.Fields.{Part, part_of};
ghost use Rattle.wire_fields.specs.Message.{IsMessage, IsSplit, parts_of, last_value, last_part, last_number, later, number_here};

use crate::{Field, FieldValue, get_field};
use hb_wire::{Items, NoMemory};
use std::alloc::Global;

/// A field of a message with the place of its first byte.
#[derive(Clone, Copy, Debug, PartialEq, Eq)]
pub struct PlacedField {
    pub at: usize,
    pub number: u32,
    pub value: FieldValue,
}

/// The fields that stand at the front of some bytes, and where they end. Where that is before the last byte, no field
/// can be read there.
#[derive(Debug, Drop)]
pub struct SplitFields {
    pub fields: Items<PlacedField>,
    pub end: usize,
}

/// The fields that the bytes begin with, as many as can be read.
///
/// Bytes are a message where the fields end with them. Which fields a message knows, of which kind, and which it
/// needs, is the reader's: it passes over the others. Source: Protocol Buffers, Encoding, Message Structure.
pub fn split_fields(alloc: Global, bytes: &[u8]) -> Result<SplitFields, NoMemory>
    ensures split { IfOk result (λ found. IsSplit bytes.now found.fields found.end) }
    // Bytes that are a message are split into its fields, to their end.
    ensures only { IfOk result (λ found. (parts : List (ℕ × Part)) → IsMessage bytes.now parts
        → (parts_of bytes.now found.fields ≡ parts) × (found.end ≡ length bytes.now)) }
{
    all_fields(alloc, bytes)
}

/// What [`split_fields`] answers.
fn all_fields(alloc: Global, bytes: &[u8]) -> Result<SplitFields, NoMemory>
    ensures { IfOk result (λ found. IsSplit bytes.now found.fields found.end) }
{
    let mut fields = Vec::new(alloc);
    let mut at = 0;
    while at < bytes.len() {
        match get_field(bytes, at) {
            Ok((Field { number, value }, used)) => {
                fields.push(PlacedField { at, number, value })?;
                at += used;
            }
            Err(_fault) => break,
        }
    }
    Ok(SplitFields {
        fields: Items::from_vec(fields),
        end: at,
    })
}

/// The last value of the fields with a number.
pub fn last_value(fields: &[PlacedField], number: u32) -> Option<FieldValue>
    ensures exact { result ≡ last_value number fields.now }
    ensures part { (bytes : List ℕ) → option_map (part_of bytes) result ≡ last_part number (parts_of bytes fields.now) }
{
    let mut last = None;
    for field in fields {
        if field.number == number {
            last = Some(field.value);
        }
    }
    last
}

/// The number that a field is, where it has the number that is asked for and its value is a number.
fn number_here(field: &Field, number: u32) -> Option<u64>
    ensures { (bytes : List ℕ) → result ≡ number_here number (field.now.number, part_of bytes field.now.value) }
{
    match field.value {
        FieldValue::Varint(value) if field.number == number => Some(value),
        _ => None,
    }
}

/// The second value where there is one, else the first.
fn later(before: Option<u64>, last: Option<u64>) -> Option<u64>
    ensures { result ≡ later before last }
{
    match last {
        None => before,
        last => last,
    }
}

/// The last of a message's values of a field that is a number, or none. It takes no memory.
///
/// Where the bytes are no message, the place where no field can be read is answered. Source: Protocol Buffers,
/// Encoding, Message Structure.
pub fn last_number(bytes: &[u8], number: u32) -> Result<Option<u64>, usize>
    // What is answered is of the fields that the bytes are.
    ensures found { IfOk result (λ last. (parts : List (ℕ × Part)) × IsMessage bytes.now parts × (last ≡ last_number number parts)) }
    // Each message is answered.
    ensures only { (parts : List (ℕ × Part)) → IsMessage bytes.now parts → result ≡ Ok (last_number number parts) }
{
    let mut at = 0;
    let mut last = None;
    while at < bytes.len() {
        let Ok((field, used)) = get_field(bytes, at) else {
            return Err(at);
        };
        last = later(last, number_here(&field, number));
        at += used;
    }
    Ok(last)
}
