//! The newest region sets.

ghost use Rattle.std.specs.Prelude.{◌≡◌, ◌==◌, true, cond, IfOk, OnOk};
ghost use Rattle.std.specs.FinMap as map;
ghost use Rattle.hb_cell.specs.Order.{bytes_cmp};
ghost use Rattle.reserved_map.specs.Filled.{filled, is_reserved};
ghost use Rattle.core_model.specs.FileChanges.{set_number};
ghost use Rattle.world_state.specs.Changes.{drops_set, set_change};
ghost use Rattle.world_state.specs.Parts.{set_in, sets_with, with_set};
ghost use Rattle.world_state.specs.Rooms.{OnCommit};

use crate::written::WrittenFile;
use core_model::{OldFile, Recipe, Step};
use hb_names::TableName;
use hb_wire::{Copied, NoMemory};
use region_set::RegionSet;
use reserved_map::ReservedMap;

/// What a step changes of the region sets.
#[derive(Drop)]
pub enum SetChange {
    Same,
    /// The set of the temporary file that is taken becomes the table's.
    Commits(TableName),
    /// The set of this number is dropped.
    Drops(TableName, u64),
}

/// What a step changes of the region sets.
pub(crate) fn set_change(step: &Step) -> Result<SetChange, NoMemory>
    ensures { IfOk result (λ change. change ≡ set_change step.now) }
{
    match step {
        Step::CommitRegions { table, .. } => Ok(SetChange::Commits(table.copy()?)),
        Step::DropOld { file, .. } => drops_set(file),
        _ => Ok(SetChange::Same),
    }
}

fn drops_set(file: &OldFile) -> Result<SetChange, NoMemory>
    ensures { IfOk result (λ change. change ≡ drops_set file.now) }
{
    match file {
        OldFile::Set(table, number) => Ok(SetChange::Drops(table.copy()?, *number)),
        _ => Ok(SetChange::Same),
    }
}

/// Takes the memory for a set that is committed.
pub(crate) fn ready_sets(
    sets: &mut ReservedMap<TableName, RegionSet>,
    change: &SetChange,
) -> Result<(), NoMemory>
    ensures ready { OnOk result (OnCommit change.now (λ table. is_reserved bytes_cmp sets.new table ≡ true)) }
    ensures same { filled bytes_cmp sets.new ≡ filled bytes_cmp sets.old }
{
    match change {
        SetChange::Commits(table) => sets.reserve(table),
        _ => Ok(()),
    }
}

/// The set that a file was written of.
pub(crate) fn set_of(file: Option<WrittenFile>) -> Option<RegionSet>
    ensures { result ≡ set_in file }
{
    match file {
        Some(
            WrittenFile {
                actor: _,
                recipe: Recipe::Set(_, set),
            },
        ) => Some(set),
        _ => None,
    }
}

/// Takes no memory. `set`: what the file that is taken was written of.
pub(crate) fn sets_after(
    sets: &mut ReservedMap<TableName, RegionSet>,
    change: SetChange,
    set: Option<RegionSet>,
)
    requires { OnCommit change (λ table. is_reserved bytes_cmp sets.old table ≡ true) }
    ensures { filled bytes_cmp sets.new ≡ sets_with change set (filled bytes_cmp sets.old) }
{
    match change {
        SetChange::Same => (),
        SetChange::Commits(table) => put_set(sets, &table, set),
        SetChange::Drops(table, number) => drop_set(sets, &table, number),
    }
}

fn put_set(sets: &mut ReservedMap<TableName, RegionSet>, table: &TableName, set: Option<RegionSet>)
    requires { is_reserved bytes_cmp sets.old table.now ≡ true }
    ensures { filled bytes_cmp sets.new ≡ with_set table.now set (filled bytes_cmp sets.old) }
{
    if let Some(set) = set {
        sets.put(table, set);
    }
}

/// Drops the set of a table that has this number.
fn drop_set(sets: &mut ReservedMap<TableName, RegionSet>, table: &TableName, number: u64)
    ensures { filled bytes_cmp sets.new ≡ cond (set_number (map.get (filled bytes_cmp sets.old) table.now) == number) (map.remove (filled bytes_cmp sets.old) table.now) (filled bytes_cmp sets.old) }
{
    if number_of(sets, table) == number {
        sets.remove(table);
    }
}

/// The number of a table's newest set: 0 where it has none.
pub(crate) fn number_of(sets: &ReservedMap<TableName, RegionSet>, table: &TableName) -> u64
    ensures { result ≡ set_number (map.get (filled bytes_cmp sets.now) table.now) }
{
    match sets.get(table) {
        Some(set) => set.number,
        None => 0,
    }
}
