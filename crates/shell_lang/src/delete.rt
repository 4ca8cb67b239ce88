//! Lines that delete.
ghost use Rattle.std.specs.Prelude.{◌≡◌, ◌<◌, ◌^◌, IfOk, IfSome, if◌then◌else◌, true, false, []};
ghost use Rattle.hb_cell.specs.declared.kind.Kind.TheVariants as cell;
ghost use Rattle.hb_names.specs.FamilyName.{IsFamilyName};
ghost use Rattle.shell_line.specs.Table.{IsDelete};
ghost use Rattle.shell_value.specs.Cut.{before, behind, has_mark};
ghost use Rattle.shell_value.specs.Quotes.{number_of};
ghost use Rattle.shell_lang.specs.Jobs.{delete_job, deleted_marker, marker_of};

use crate::put::column_of;
use hb_cell::Kind;
use hb_names::FamilyName;
use hb_wire::{Blob, NoMemory};
use plain_model::{Job, PutCell};
use shell_value::argument_value;
use shell_value::cut::has_mark;
use shell_value::number::number_of;
use shell_value::quotes::{rest_of, text_of};
use std::alloc::Global;

/// Which marker of a column its line asks for.
fn column_kind(end: &[u8]) -> Kind
    ensures { result ≡ (if has_mark 39 end.now then cell.Delete else cell.DeleteColumn) }
{
    if has_mark(end, b'\'') {
        Kind::Delete
    } else {
        Kind::DeleteColumn
    }
}

/// The marker of a column.
fn column_cell(
    alloc: Global,
    row: Blob,
    column: &[u8],
    ts: Option<u64>,
    kind: Kind,
) -> Result<PutCell, NoMemory>
    requires { IsFamilyName (before 58 column.now) }
    ensures { IfOk result (λ marker. marker ≡ marker_of row (before 58 column.now) (behind 58 column.now) ts kind) }
{
    let column = column_of(alloc, column)?;
    Ok(PutCell {
        row,
        family: column.family,
        qualifier: column.qualifier,
        ts,
        kind,
        value: Blob::from_vec(Vec::new(alloc)),
    })
}

/// The marker of a family.
fn family_cell(
    alloc: Global,
    row: Blob,
    family: &[u8],
    ts: Option<u64>,
) -> Result<PutCell, NoMemory>
    requires { IsFamilyName family.now }
    ensures { IfOk result (λ marker. marker ≡ marker_of row family.now [] ts cell.DeleteFamily) }
{
    Ok(PutCell {
        row,
        family: FamilyName::copy_of(alloc, family)?,
        qualifier: Blob::from_vec(Vec::new(alloc)),
        ts,
        kind: Kind::DeleteFamily,
        value: Blob::from_vec(Vec::new(alloc)),
    })
}

/// The marker of a column or of a family.
fn marker(alloc: Global, row: Blob, deleted: &[u8], end: &[u8]) -> Result<PutCell, NoMemory>
    requires family { has_mark 58 deleted.now ≡ false → IsFamilyName deleted.now }
    requires column { has_mark 58 deleted.now ≡ true → IsFamilyName (before 58 deleted.now) }
    requires fits { IfSome (number_of end.now) (λ number. number < 2 ^ 64) }
    ensures { IfOk result (λ marker. marker ≡ deleted_marker row deleted.now end.now) }
{
    let ts = number_of(end);
    if has_mark(deleted, b':') {
        column_cell(alloc, row, deleted, ts, column_kind(end))
    } else {
        family_cell(alloc, row, deleted, ts)
    }
}

/// A table, a row, and a column or a family, and a timestamp or none.
pub(crate) fn delete(alloc: Global, arguments: &[u8]) -> Result<Job, NoMemory>
    requires { IsDelete arguments.now }
    ensures { IfOk result (λ job. job ≡ delete_job arguments.now) }
{
    let row = rest_of(arguments);
    let deleted = rest_of(row);
    let end = rest_of(deleted);
    let table = argument_value::table_of(alloc, text_of(arguments))?;
    let row = argument_value::value_of(alloc, text_of(row))?;
    let deleted = argument_value::value_of(alloc, text_of(deleted))?;
    let cell = marker(alloc, row, deleted.as_slice(), end)?;
    Ok(Job::Put { table, cell })
}
