//! Temporary files, and what they were written of.

ghost use Rattle.std.specs.Prelude.{◌≡◌, true, IfOk, OnOk};
ghost use Rattle.hb_cell.specs.Order.{bytes_cmp};
ghost use Rattle.reserved_map.specs.Filled.{filled, is_reserved};
ghost use Rattle.world_state.specs.Changes.{adds, drops_tmp, written_change};
ghost use Rattle.world_state.specs.Parts.{taken_by, written_with};
ghost use Rattle.world_state.specs.Rooms.{OnAdd};

use core_model::{OldFile, Recipe, Step};
use hb_file_names::FileName;
use hb_names::TableName;
use hb_wire::{Copied, NoMemory};
use plain_model::Actor;
use region_set::RegionSet;
use reserved_map::ReservedMap;

/// Who wrote a temporary file, and of what.
#[derive(Debug, Drop)]
pub struct WrittenFile {
    pub actor: u32,
    pub recipe: Recipe,
}

/// What a step changes of the temporary files.
#[derive(Drop)]
pub enum WrittenChange {
    Same,
    Adds(FileName, WrittenFile),
    /// The file is moved or dropped.
    Takes(FileName),
}

/// What a step changes of the temporary files.
pub(crate) fn written_change(step: &Step) -> Result<WrittenChange, NoMemory>
    ensures { IfOk result (λ change. change ≡ written_change step.now) }
{
    match step {
        Step::WriteTmp {
            actor,
            recipe,
            name,
            ..
        } => adds(*actor, recipe, name),
        Step::CommitRegions { name, .. } => takes(name),
        Step::DropOld { file, .. } => drops_tmp(file),
        _ => Ok(WrittenChange::Same),
    }
}

/// The file of a region set.
fn adds(actor: Actor, recipe: &Recipe, name: &FileName) -> Result<WrittenChange, NoMemory>
    ensures { IfOk result (λ change. change ≡ adds actor recipe.now name.now) }
{
    match recipe {
        Recipe::Set(table, set) => Ok(WrittenChange::Adds(
            name.copy()?,
            file_of_set(actor, table, set)?,
        )),
        _ => Ok(WrittenChange::Same),
    }
}

fn file_of_set(actor: Actor, table: &TableName, set: &RegionSet) -> Result<WrittenFile, NoMemory>
    ensures { IfOk result (λ file. file ≡ record { actor = actor.0; recipe = Recipe.Set table.now set.now }) }
{
    Ok(WrittenFile {
        actor: actor.0,
        recipe: Recipe::Set(table.copy()?, set.copy()?),
    })
}

fn takes(name: &FileName) -> Result<WrittenChange, NoMemory>
    ensures { IfOk result (λ change. change ≡ WrittenChange.Takes name.now) }
{
    Ok(WrittenChange::Takes(name.copy()?))
}

fn drops_tmp(file: &OldFile) -> Result<WrittenChange, NoMemory>
    ensures { IfOk result (λ change. change ≡ drops_tmp file.now) }
{
    match file {
        OldFile::Tmp(name) => takes(name),
        _ => Ok(WrittenChange::Same),
    }
}

/// Takes the memory for a file that is written.
pub(crate) fn ready_written(
    written: &mut ReservedMap<FileName, WrittenFile>,
    change: &WrittenChange,
) -> Result<(), NoMemory>
    ensures ready { OnOk result (OnAdd change.now (λ name. is_reserved bytes_cmp written.new name ≡ true)) }
    ensures same { filled bytes_cmp written.new ≡ filled bytes_cmp written.old }
{
    match change {
        WrittenChange::Adds(name, _) => written.reserve(name),
        _ => Ok(()),
    }
}

/// Gives the file that is taken. It takes no memory.
pub(crate) fn written_after(
    written: &mut ReservedMap<FileName, WrittenFile>,
    change: WrittenChange,
) -> Option<WrittenFile>
    requires { OnAdd change (λ name. is_reserved bytes_cmp written.old name ≡ true) }
    ensures taken { result ≡ taken_by change (filled bytes_cmp written.old) }
    ensures written { filled bytes_cmp written.new ≡ written_with change (filled bytes_cmp written.old) }
{
    match change {
        WrittenChange::Same => None,
        WrittenChange::Adds(name, file) => {
            written.put(&name, file);
            None
        }
        WrittenChange::Takes(name) => written.remove(&name),
    }
}
