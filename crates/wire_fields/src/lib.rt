//! Numbers and fields of protobuf messages, and messages as lists of fields.
#![tactic(auto)]

pub mod field;
pub mod message;
pub mod text;
pub mod varint;

pub use field::{Field, FieldValue, get_field, put_bytes_field, put_varint_field};
pub use message::{PlacedField, SplitFields, last_number, last_value, split_fields};
pub use text::texts;
pub use varint::{get_varint, put_varint};

#[cfg(test)]
mod tests;
