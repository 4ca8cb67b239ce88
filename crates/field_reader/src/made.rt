//! Values that are made of a message's fields.
ghost use Rattle.std.specs.Prelude.{◌≡◌, ℕ, List, ◌^◌, ◌+◌, ◌<◌, ◌≤◌, length, Option, Ok, IfOk, IfErr, IfSome, option_map};
ghost use Rattle.wire_fields.specs.Fields.{Part};
ghost use Rattle.wire_fields.specs.Message.{IsMessage, later};
ghost use Rattle.field_rules.specs.Record.{need};
ghost use Rattle.field_reader.specs.Faults.{last_place, here_place, IsUntold};

use crate::RecordError;
use field_rules::Unmade;
use wire_fields::get_field;

/// The value of a required field, or that the field with this number is missing.
pub fn need<V>(value: Option<V>, number: u32) -> Result<V, Unmade>
    ensures { result ≡ need number value }
{
    match value {
        Some(value) => Ok(value),
        None => Err(Unmade::Missing(number)),
    }
}

/// A place, where it is asked for.
fn here_place(asked: bool, at: usize) -> Option<usize>
    ensures { result ≡ here_place asked at }
{
    if asked { Some(at) } else { None }
}

/// The second place where there is one, else the first.
fn later(before: Option<usize>, last: Option<usize>) -> Option<usize>
    ensures { result ≡ later before last }
{
    match last {
        None => before,
        last => last,
    }
}

/// Where the last field of a message stands that has the number, or 0.
fn last_place(bytes: &[u8], number: u32) -> usize
    ensures within { result ≤ length bytes.now }
    ensures told { (parts : List (ℕ × Part)) (at : ℕ) → IsMessage bytes.now parts → last_place number 0 parts ≡ Some at → result ≡ at }
{
    let mut at = 0;
    let mut last = None;
    while at < bytes.len() {
        let Ok((field, used)) = get_field(bytes, at) else {
            return 0;
        };
        last = later(last, here_place(field.number == number, at));
        at += used;
    }
    last.unwrap_or(0)
}

/// The value that was made of the fields of a message, which stands at a place; or why there is none: a field is
/// missing, or one stands where none is wanted, and its place is told.
pub fn told<V>(made: Result<V, Unmade>, bytes: &[u8], place: u64) -> Result<V, RecordError>
    requires { place + length bytes.now < 2 ^ 64 }
    ensures found { IfOk result (λ v. made ≡ Ok v) }
    ensures fault { IfErr result (IsUntold made bytes.now place) }
{
    match made {
        Ok(value) => Ok(value),
        Err(Unmade::Missing(number)) => Err(RecordError::MissingField(number)),
        Err(Unmade::Needless(number)) => Err(RecordError::BadRecord(
            place + last_place(bytes, number) as u64,
        )),
    }
}
