//! Lines of one or two arguments.
ghost use Rattle.std.specs.Prelude.{◌≡◌, IfOk};
ghost use Rattle.plain_model.specs.declared.job.Job.{Job};
ghost use Rattle.plain_model.specs.declared.job.Job.TheVariants as job;
ghost use Rattle.shell_line.specs.Table.{IsOne, IsTwo, folder, name, row};
ghost use Rattle.shell_value.specs.Quotes.{rest_of, value_of};

use hb_names::{SnapName, TableName};
use hb_wire::NoMemory;
use plain_model::Job;
use shell_value::argument_value;
use shell_value::quotes::{rest_of, text_of};
use std::alloc::Global;

/// The table of a line that names one.
pub(crate) fn table_alone(alloc: Global, arguments: &[u8]) -> Result<TableName, NoMemory>
    requires { IsOne name arguments.now }
    ensures { IfOk result (λ table. table ≡ value_of arguments.now) }
{
    argument_value::table_of(alloc, text_of(arguments))
}

/// The snapshot of a line that names one.
pub(crate) fn snapshot_alone(alloc: Global, arguments: &[u8]) -> Result<SnapName, NoMemory>
    requires { IsOne name arguments.now }
    ensures { IfOk result (λ snapshot. snapshot ≡ value_of arguments.now) }
{
    argument_value::snapshot_of(alloc, text_of(arguments))
}

/// A table, and the row at which its region is split.
pub(crate) fn split(alloc: Global, arguments: &[u8]) -> Result<Job, NoMemory>
    requires { IsTwo name row arguments.now }
    ensures { IfOk result (λ split. split ≡ job.Split (value_of arguments.now) (value_of (rest_of arguments.now))) }
{
    let table = argument_value::table_of(alloc, text_of(arguments))?;
    let row = argument_value::value_of(alloc, text_of(rest_of(arguments)))?;
    Ok(Job::Split { table, row })
}

/// A table, and the snapshot that is taken of it.
pub(crate) fn snapshot(alloc: Global, arguments: &[u8]) -> Result<Job, NoMemory>
    requires { IsTwo name name arguments.now }
    ensures { IfOk result (λ taken. taken ≡ job.Snapshot (value_of arguments.now) (value_of (rest_of arguments.now))) }
{
    let table = argument_value::table_of(alloc, text_of(arguments))?;
    let snapshot = argument_value::snapshot_of(alloc, text_of(rest_of(arguments)))?;
    Ok(Job::Snapshot { table, snapshot })
}

/// A snapshot, and the table that is made of it.
pub(crate) fn clone_of(alloc: Global, arguments: &[u8]) -> Result<Job, NoMemory>
    requires { IsTwo name name arguments.now }
    ensures { IfOk result (λ cloned. cloned ≡ job.Clone (value_of arguments.now) (value_of (rest_of arguments.now))) }
{
    let snapshot = argument_value::snapshot_of(alloc, text_of(arguments))?;
    let table = argument_value::table_of(alloc, text_of(rest_of(arguments)))?;
    Ok(Job::Clone { snapshot, table })
}

/// A table, and the folder whose files join it.
pub(crate) fn bulk(alloc: Global, arguments: &[u8]) -> Result<Job, NoMemory>
    requires { IsTwo name folder arguments.now }
    ensures { IfOk result (λ loaded. loaded ≡ job.Bulk (value_of arguments.now) (value_of (rest_of arguments.now))) }
{
    let table = argument_value::table_of(alloc, text_of(arguments))?;
    let folder = argument_value::value_of(alloc, text_of(rest_of(arguments)))?;
    Ok(Job::Bulk { table, folder })
}
