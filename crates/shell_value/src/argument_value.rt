//! The values of arguments.
ghost use Rattle.std.specs.Prelude.{◌≡◌, ◌↔◌, ◌≤◌, ℕ, List, IfOk, IsSome, true, length};
ghost use Rattle.shell_value.specs.Cut.{has_mark};
ghost use Rattle.shell_value.specs.Column.{IsColumn};
ghost use Rattle.hb_names.specs.TableName.{IsTableName};
ghost use Rattle.hb_names.specs.SnapName.{IsSnapName};
ghost use Rattle.hb_names.specs.FamilyName.{IsFamilyName};
ghost use Rattle.shell_text.specs.Argument.{Means};
ghost use Rattle.shell_text.specs.declared.text.Place.TheVariants.{Between};
ghost use Rattle.shell_line.specs.Table.{cell_value, column, family, name, row};
ghost use Rattle.shell_text.specs.Text.{IsText, is_small, meaning};
ghost use Rattle.shell_value.specs.Quotes.{AddsByte, meant};

use crate::cut::has_mark;
use hb_names::{FamilyName, NameError, SnapName, TableName};
use hb_wire::{Blob, NoMemory};
use shell_text::text::{Place, digit_value};
use std::alloc::{AllocError, Global};

/// The arguments of a line obey the rules of the names that they become, and the limits of rows and values.
pub fn arguments_are_names()
    ensures table { (bytes : List ℕ) → Means name bytes ↔ IsTableName bytes }
    ensures snapshot { (bytes : List ℕ) → Means name bytes ↔ IsSnapName bytes }
    ensures family { (bytes : List ℕ) → Means family bytes ↔ IsFamilyName bytes }
    ensures column { (bytes : List ℕ) → Means column bytes ↔ IsColumn bytes }
    ensures row { (bytes : List ℕ) → Means row bytes ↔ ((1 ≤ length bytes) × (length bytes ≤ 32767)) }
    ensures cell { (bytes : List ℕ) → Means cell_value bytes ↔ (length bytes ≤ 10485760) }
{}

/// Whether a text has an escape.
fn has_escape(text: &[u8]) -> bool
    ensures { result ≡ has_mark 92 text.now }
{
    has_mark(text, b'\\')
}

/// Adds the byte of a text that stands behind so much of an escape, and says how much stands before the next.
fn add_byte(out: &mut Vec<u8>, place: Place, byte: u8) -> Result<Place, NoMemory>
    requires { is_small place ≡ true }
    ensures small { IfOk result (λ next. is_small next ≡ true) }
    ensures adds { IfOk result (λ next. AddsByte out.old.items place byte out.new.items next) }
{
    match place {
        Place::Between => {
            if byte == b'\\' {
                return Ok(Place::Escape);
            }
            out.push(byte)?;
            Ok(Place::Between)
        }
        Place::Escape => Ok(Place::First),
        Place::First => Ok(Place::Second(digit_value(byte))),
        Place::Second(high) => {
            out.push(16 * high + digit_value(byte))?;
            Ok(Place::Between)
        }
    }
}

/// What a text means.
fn unescaped(alloc: Global, text: &[u8]) -> Result<Blob, NoMemory>
    requires { IsSome (meaning Between text.now) }
    ensures { IfOk result (λ value. value ≡ meant text.now) }
{
    let mut out = Vec::with_capacity(alloc, text.len())?;
    let mut place = Place::Between;
    for byte in text {
        place = add_byte(&mut out, place, *byte)?;
    }
    Ok(Blob::from_vec(out))
}

/// What a text means, copied once.
pub fn value_of(alloc: Global, text: &[u8]) -> Result<Blob, NoMemory>
    requires { IsSome (meaning Between text.now) }
    ensures { IfOk result (λ value. value ≡ meant text.now) }
{
    if has_escape(text) {
        unescaped(alloc, text)
    } else {
        Blob::copy_of(alloc, text)
    }
}

/// The table that a text names.
pub fn table_of(alloc: Global, text: &[u8]) -> Result<TableName, NoMemory>
    requires { IsText name text.now }
    ensures { IfOk result (λ table. table ≡ meant text.now) }
{
    if has_escape(text) {
        let value = unescaped(alloc, text)?;
        TableName::copy_of(alloc, value.as_slice())
    } else {
        TableName::copy_of(alloc, text)
    }
}

/// The family that a text names.
pub fn family_name(alloc: Global, text: &[u8]) -> Result<FamilyName, NoMemory>
    requires { IsText family text.now }
    ensures { IfOk result (λ name. name ≡ meant text.now) }
{
    if has_escape(text) {
        let value = unescaped(alloc, text)?;
        FamilyName::copy_of(alloc, value.as_slice())
    } else {
        FamilyName::copy_of(alloc, text)
    }
}

/// The snapshot of a name.
fn snapshot_named(alloc: Global, bytes: &[u8]) -> Result<SnapName, NoMemory>
    requires { IsSnapName bytes.now }
    ensures { IfOk result (λ name. name ≡ bytes.now) }
{
    match SnapName::read(alloc, bytes) {
        Ok(name) => Ok(name),
        Err(NameError::NoMemory) => Err(AllocError),
        Err(NameError::Bad(_)) => unreachable!(),
    }
}

/// The snapshot that a text names.
pub fn snapshot_of(alloc: Global, text: &[u8]) -> Result<SnapName, NoMemory>
    requires { IsText name text.now }
    ensures { IfOk result (λ snapshot. snapshot ≡ meant text.now) }
{
    if has_escape(text) {
        let value = unescaped(alloc, text)?;
        snapshot_named(alloc, value.as_slice())
    } else {
        snapshot_named(alloc, text)
    }
}
