//! Fields of messages.
ghost use Rattle.std.specs.Prelude.{◌≡◌, ◌≤◌, ◌<◌, ◌++◌, ◌+◌, ◌*◌, ◌^◌, ℕ, List, length, drop, Ok, Err, IfOk, OnOk, OnErr};
ghost use Rattle.wire_fields.specs.Fields.{Part, number as numbered, text, field_bytes, value_bytes, field_at, value_at, fixed_at, part_of, Fits, IsId, Finds};

use crate::{get_varint, put_varint};
use byteorder::{ByteOrder, LittleEndian};
use hb_wire::{Blob, NoMemory, WireError};

/// A field of a message: its number, and its value.
#[derive(Clone, Copy, Debug, PartialEq, Eq)]
pub struct Field {
    pub number: u32,
    pub value: FieldValue,
}

/// The value of a field. Bytes are told by their place in the input and how many they are.
#[derive(Clone, Copy, Debug, PartialEq, Eq)]
pub enum FieldValue {
    Varint(u64),
    Fixed64(u64),
    Fixed32(u32),
    Bytes { from: usize, len: usize },
}

/// The value of the kind that the tag tells, which stands at a place, and how many bytes it takes.
#[tactic(auto, unfolding(crate::specs::Fields::value_at))]
fn value_at(bytes: &[u8], at: usize, tag: u32) -> Result<(FieldValue, usize), WireError>
    requires { at ≤ length bytes.now }
    ensures exact { result ≡ value_at tag at (drop at bytes.now) }
    ensures within { IfOk result (λ x. at + x.1 ≤ length bytes.now) }
{
    let rest = &bytes[at..];
    match tag % 8 {
        0 => {
            let (value, used) = get_varint(bytes, at)?;
            Ok((FieldValue::Varint(value), used))
        }
        1 if rest.len() < 8 => Err(WireError::Short(8 - rest.len())),
        1 => Ok((FieldValue::Fixed64(LittleEndian::read_u64(rest)), 8)),
        5 if rest.len() < 4 => Err(WireError::Short(4 - rest.len())),
        5 => Ok((FieldValue::Fixed32(LittleEndian::read_u32(rest)), 4)),
        2 => {
            let (len, used) = get_varint(bytes, at)?;
            let len = len as usize;
            let left = rest.len() - used;
            if left < len {
                return Err(WireError::Short(len - left));
            }
            let from = at + used;
            Ok((FieldValue::Bytes { from, len }, used + len))
        }
        _ => Err(WireError::BadWire(tag)),
    }
}

/// The field that stands at a place, and how many bytes it takes. It takes no memory.
///
/// `Short` says how many bytes are missing at least. A tag above 32 bits and a number that is spelled longer than
/// needed are `Overlong`. The field number 0 and the kinds of groups, and those of no value, are `BadWire` with the
/// tag. Source: Protocol Buffers, Encoding, Message Structure.
pub fn get_field(bytes: &[u8], at: usize) -> Result<(Field, usize), WireError>
    requires { at ≤ length bytes.now }
    // Which field it is, or which fault.
    ensures exact { result ≡ field_at at (drop at bytes.now) }
    ensures within { IfOk result (λ x. at + x.1 ≤ length bytes.now) }
    ensures some { IfOk result (λ x. 0 < x.1) }
    // What is read is spelled so.
    ensures found { IfOk result (λ x. IsId x.0.number × Fits (part_of bytes.now x.0.value)
        × (drop at bytes.now ≡ field_bytes x.0.number (part_of bytes.now x.0.value) ++ drop (at + x.1) bytes.now)) }
    // What is spelled so is read.
    ensures only { (id : ℕ) (part : Part) (rest : List ℕ) → IsId id → Fits part
        → drop at bytes.now ≡ field_bytes id part ++ rest → Finds bytes.now result id part }
{
    field_at(bytes, at)
}

/// What [`get_field`] answers.
#[tactic(auto, unfolding(crate::specs::Fields::field_at))]
fn field_at(bytes: &[u8], at: usize) -> Result<(Field, usize), WireError>
    requires { at ≤ length bytes.now }
    ensures exact { result ≡ field_at at (drop at bytes.now) }
    ensures within { IfOk result (λ x. at + x.1 ≤ length bytes.now) }
{
    let (tag, used) = get_varint(bytes, at)?;
    if tag > u32::MAX as u64 {
        return Err(WireError::Overlong);
    }
    let tag = tag as u32;
    let number = tag / 8;
    if number == 0 {
        return Err(WireError::BadWire(tag));
    }
    let (value, len) = value_at(bytes, at + used, tag)?;
    Ok((Field { number, value }, used + len))
}

/// Adds a field with a number as its value at the end. Without memory for it nothing changes.
#[tactic(auto, unfolding(crate::specs::Fields::field_bytes))]
pub fn put_varint_field(out: &mut Blob, number: u32, value: u64) -> Result<(), NoMemory>
    requires { IsId number }
    ensures ok { OnOk result (out.new ≡ out.old ++ field_bytes number (numbered value)) }
    ensures err { OnErr result (out.new ≡ out.old) }
{
    let old = out.len();
    put_varint(out, 8 * number as u64)?;
    match put_varint(out, value) {
        Ok(()) => Ok(()),
        Err(full) => {
            out.truncate(old);
            Err(full)
        }
    }
}

/// Adds how many bytes there are, and the bytes. Without memory for them nothing changes.
fn put_text(out: &mut Blob, bytes: &[u8]) -> Result<(), NoMemory>
    ensures ok { OnOk result (out.new ≡ out.old ++ value_bytes (text bytes.now)) }
    ensures err { OnErr result (out.new ≡ out.old) }
{
    let old = out.len();
    put_varint(out, bytes.len() as u64)?;
    match out.add(bytes) {
        Ok(()) => Ok(()),
        Err(full) => {
            out.truncate(old);
            Err(full)
        }
    }
}

/// Adds a field with bytes as its value at the end. Without memory for it nothing changes.
#[tactic(auto, unfolding(crate::specs::Fields::field_bytes))]
pub fn put_bytes_field(out: &mut Blob, number: u32, bytes: &[u8]) -> Result<(), NoMemory>
    requires { IsId number }
    ensures ok { OnOk result (out.new ≡ out.old ++ field_bytes number (text bytes.now)) }
    ensures err { OnErr result (out.new ≡ out.old) }
{
    let old = out.len();
    put_varint(out, 8 * number as u64 + 2)?;
    match put_text(out, bytes) {
        Ok(()) => Ok(()),
        Err(full) => {
            out.truncate(old);
            Err(full)
        }
    }
}
