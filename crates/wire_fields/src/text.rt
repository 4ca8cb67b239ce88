//! The values of a field that are bytes.
ghost use Rattle.std.specs.Prelude.{◌≡◌, ◌++◌, ℕ, List, map, take, drop, option_map, Some, IfOk, IfSome, OnOk};
ghost use Rattle.wire_fields.specs.Fields.{Part, part_of};
ghost use Rattle.wire_fields.specs.Message.{IsMessage, parts_of, text_here, texts};
ghost use Rattle.std.specs.Option.{option_to_list};

use crate::{FieldValue, PlacedField, split_fields};
use hb_wire::NoMemory;
use std::alloc::Global;

/// So many bytes from a place on, or as many as there are.
fn text_at(bytes: &[u8], from: usize, len: usize) -> &[u8]
    ensures { result.now ≡ take len (drop from bytes.now) }
{
    let (_, rest) = bytes.split_at(from.min(bytes.len()));
    let (text, _) = rest.split_at(len.min(rest.len()));
    text
}

/// The bytes that a field is, where it has the number that is asked for and its value is bytes.
fn text_here<'a>(bytes: &'a [u8], field: &PlacedField, number: u32) -> Option<&'a [u8]>
    ensures { option_map (λ t. t.now) result ≡ text_here number (field.now.number, part_of bytes.now field.now.value) }
{
    match field.value {
        FieldValue::Bytes { from, len } if field.number == number => Some(text_at(
            bytes, from, len,
        )),
        _ => None,
    }
}

/// Adds a text where there is one.
fn add_text<'a>(texts: &mut Vec<&'a [u8]>, text: Option<&'a [u8]>) -> Result<(), NoMemory>
    ensures { OnOk result (map (λ t. t.now) texts.new.items ≡ map (λ t. t.now) texts.old.items ++ option_to_list (option_map (λ t. t.now) text.entry)) }
{
    match text {
        None => Ok(()),
        Some(text) => {
            texts.push(text)?;
            Ok(())
        }
    }
}

/// The values of some fields that have the number that is asked for and are bytes.
fn texts_of<'a>(
    alloc: Global,
    bytes: &'a [u8],
    fields: &[PlacedField],
    number: u32,
) -> Result<Vec<&'a [u8]>, NoMemory>
    ensures { IfOk result (λ found. map (λ t. t.now) found.items ≡ texts number (parts_of bytes.now fields.now)) }
{
    let mut found = Vec::new(alloc);
    for field in fields {
        add_text(&mut found, text_here(bytes, field, number))?;
    }
    Ok(found)
}

/// The values of a message's field that are bytes, in their order, or none where the bytes are no message.
///
/// Source: Protocol Buffers, Encoding, Message Structure.
pub fn texts(alloc: Global, bytes: &[u8], number: u32) -> Result<Option<Vec<&[u8]>>, NoMemory>
    // What is answered is of the fields that the bytes are.
    ensures found { IfOk result (λ answer. IfSome answer (λ found. (parts : List (ℕ × Part)) × IsMessage bytes.now parts
        × (map (λ t. t.now) found.items ≡ texts number parts))) }
    // Each message is answered.
    ensures only { IfOk result (λ answer. (parts : List (ℕ × Part)) → IsMessage bytes.now parts
        → option_map (λ found. map (λ t. t.now) found.items) answer ≡ Some (texts number parts)) }
{
    let split = split_fields(alloc, bytes)?;
    if split.end < bytes.len() {
        return Ok(None);
    }
    Ok(Some(texts_of(alloc, bytes, split.fields.as_slice(), number)?))
}
