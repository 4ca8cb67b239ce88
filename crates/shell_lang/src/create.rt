//! Lines that create a table.
ghost use Rattle.std.specs.Prelude.{◌≡◌, ◌<◌, ◌^◌, IfOk, IfSome, OnOk, ◌++◌, true, unwrap_or};
ghost use Rattle.shell_line.specs.Table.{IsCreate, family, row};
ghost use Rattle.shell_value.specs.Cut.{before, has_mark};
ghost use Rattle.shell_value.specs.Quotes.{behind_values, number_of, values_of};
ghost use Rattle.shell_lang.specs.Create.{AreTexts, HasRows};
ghost use Rattle.shell_lang.specs.Jobs.{create_job, splits_of};

use hb_names::FamilyName;
use hb_wire::{Blob, Items, NoMemory};
use plain_model::Job;
use shell_value::argument_value;
use shell_value::cut::{before, has_mark};
use shell_value::number::number_of;
use shell_value::quotes::{is_listed, rest_of, text_of};
use std::alloc::Global;

/// The most families of a table.
const MAX_FAMILIES: u32 = 16;

/// The most rows behind the first at which a new table is split.
const MAX_FURTHER_SPLITS: u32 = 998;

/// The families of a line, each behind its comma.
fn families_of(alloc: Global, bytes: &[u8]) -> Result<Items<FamilyName>, NoMemory>
    requires { AreTexts family 16 bytes.now }
    ensures { IfOk result (λ families. families ≡ values_of 16 bytes.now) }
{
    let mut families = Vec::new(alloc);
    let mut rest = bytes;
    let mut more = MAX_FAMILIES;
    while more > 0 && is_listed(rest) {
        let family = argument_value::family_name(alloc, text_of(rest))?;
        families.push(family)?;
        rest = rest_of(rest);
        more -= 1;
    }
    Ok(Items::from_vec(families))
}

/// What stands behind the families of a line.
fn behind_families(bytes: &[u8]) -> &[u8]
    ensures { result.now ≡ behind_values 16 bytes.now }
{
    let mut rest = bytes;
    let mut more = MAX_FAMILIES;
    while more > 0 && is_listed(rest) {
        rest = rest_of(rest);
        more -= 1;
    }
    rest
}

/// How many versions a new table shows, by the end of its line: 1 where that does not tell.
fn versions_of(end: &[u8]) -> u32
    requires { IfSome (number_of (before 39 end.now)) (λ number. number < 2 ^ 32) }
    ensures { result ≡ unwrap_or (number_of (before 39 end.now)) 1 }
{
    match number_of(before(end, b'\'')) {
        Some(number) => number as u32,
        None => 1,
    }
}

/// Adds the rows of a line, each behind its comma.
fn add_rows(alloc: Global, rows: &mut Vec<Blob>, bytes: &[u8]) -> Result<(), NoMemory>
    requires { AreTexts row 998 bytes.now }
    ensures { OnOk result (rows.new.items ≡ rows.old.items ++ values_of 998 bytes.now) }
{
    let mut rest = bytes;
    let mut more = MAX_FURTHER_SPLITS;
    while more > 0 && is_listed(rest) {
        let row = argument_value::value_of(alloc, text_of(rest))?;
        rows.push(row)?;
        rest = rest_of(rest);
        more -= 1;
    }
    Ok(())
}

/// The rows at which a new table is split, by the end of its line.
fn rows_of(alloc: Global, end: &[u8]) -> Result<Items<Blob>, NoMemory>
    requires { has_mark 39 end.now ≡ true → HasRows end.now }
    ensures { IfOk result (λ rows. rows ≡ splits_of end.now) }
{
    let mut rows = Vec::new(alloc);
    if has_mark(end, b'\'') {
        let first = argument_value::value_of(alloc, text_of(end))?;
        rows.push(first)?;
        add_rows(alloc, &mut rows, rest_of(end))?;
    }
    Ok(Items::from_vec(rows))
}

/// A table, its families, how many versions each shows, and its splits.
pub(crate) fn create(alloc: Global, arguments: &[u8]) -> Result<Job, NoMemory>
    requires { IsCreate arguments.now }
    ensures { IfOk result (λ job. job ≡ create_job arguments.now) }
{
    let listed = rest_of(arguments);
    let end = behind_families(listed);
    let versions = versions_of(end);
    let table = argument_value::table_of(alloc, text_of(arguments))?;
    let families = families_of(alloc, listed)?;
    let splits = rows_of(alloc, end)?;
    Ok(Job::Create {
        table,
        families,
        versions,
        splits,
    })
}
