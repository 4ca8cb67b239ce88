//! Lines that put a cell.
ghost use Rattle.std.specs.Prelude.{◌≡◌, IfOk};
ghost use Rattle.hb_names.specs.FamilyName.{IsFamilyName};
ghost use Rattle.shell_line.specs.Table.{IsPut};
ghost use Rattle.shell_value.specs.Cut.{before, behind};
ghost use Rattle.shell_lang.specs.Jobs.{put_job};

use hb_cell::Kind;
use hb_names::FamilyName;
use hb_wire::{Blob, NoMemory};
use plain_model::{Job, PutCell};
use shell_value::argument_value;
use shell_value::cut::{before, behind};
use shell_value::number::number_of;
use shell_value::quotes::{rest_of, text_of};
use std::alloc::Global;

/// A family and a qualifier.
#[derive(Drop)]
pub(crate) struct Column {
    pub(crate) family: FamilyName,
    pub(crate) qualifier: Blob,
}

/// The family and the qualifier on both sides of the first colon.
pub(crate) fn column_of(alloc: Global, bytes: &[u8]) -> Result<Column, NoMemory>
    requires { IsFamilyName (before 58 bytes.now) }
    ensures family { IfOk result (λ column. column.family ≡ before 58 bytes.now) }
    ensures qualifier { IfOk result (λ column. column.qualifier ≡ behind 58 bytes.now) }
{
    let family = FamilyName::copy_of(alloc, before(bytes, b':'))?;
    let qualifier = Blob::copy_of(alloc, behind(bytes, b':'))?;
    Ok(Column { family, qualifier })
}

/// A table, a row, a column, a value, and a timestamp or none.
pub(crate) fn put(alloc: Global, arguments: &[u8]) -> Result<Job, NoMemory>
    requires { IsPut arguments.now }
    ensures { IfOk result (λ job. job ≡ put_job arguments.now) }
{
    let row = rest_of(arguments);
    let column = rest_of(row);
    let value = rest_of(column);
    let ts = number_of(rest_of(value));
    let table = argument_value::table_of(alloc, text_of(arguments))?;
    let row = argument_value::value_of(alloc, text_of(row))?;
    let column = argument_value::value_of(alloc, text_of(column))?;
    let column = column_of(alloc, column.as_slice())?;
    let value = argument_value::value_of(alloc, text_of(value))?;
    let cell = PutCell {
        row,
        family: column.family,
        qualifier: column.qualifier,
        ts,
        kind: Kind::Put,
        value,
    };
    Ok(Job::Put { table, cell })
}
