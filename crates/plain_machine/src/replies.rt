//! The refusals of jobs, and what is answered where none holds.

ghost use Rattle.std.specs.Prelude.{◌≡◌, ◌≤◌, ◌^◌, ◌∷◌, [], cond, not, IfOk, option_copied, option_map, sum_by};
ghost use Rattle.std.specs.List.{list_any, list_all};
ghost use Rattle.hb_cell.specs.Order.{same_bytes};
ghost use Rattle.plain_model.specs.Found.{adds, has_family, is_dividing, is_open_hold, is_table};
ghost use Rattle.plain_model.specs.Held.{least, lesser};
ghost use Rattle.plain_model.specs.Replies.{first, when, not_found, not_enabled, not_disabled, refusals, granted, no_files, repeated, are_splits, is_start_of, uses, taken_by, taken_names, least_name, lesser_name};
ghost use Rattle.plain_model.specs.declared.job.Job.TheVariants as jobs;
ghost use Rattle.plain_model.specs.declared.reply.Reply.TheVariants.{BadSplitKey, DuplicateFamily, TableExists, Taking, UnknownFamily};
ghost use Rattle.plain_machine.specs.Machine.{state_of};

use crate::plain::Plain;
use hb_names::{FamilyName, SnapName, TableName};
use hb_records::RegionInfo;
use hb_wire::{Blob, Copied, Items, NoMemory};
use plain_cells::lists::joined;
use plain_model::{Hold, Job, Live, Reply};
use plain_tables::new_tables::{are_splits, repeated};
use plain_tables::regions::{is_open, region_of};
use plain_tables::snapshots::{names, snapshot_at};
use plain_tables::tables::table_at;
use std::alloc::Global;

/// Why a table can't be read or written.
pub(crate) fn unless_enabled(machine: &Plain, table: &TableName) -> Option<Reply>
    ensures { result ≡ first (not_found (state_of machine.now) table.now ∷ not_enabled (state_of machine.now) table.now ∷ []) }
{
    match table_at(machine.state.tables.as_slice(), table) {
        None => Some(Reply::TableNotFound),
        Some(found) => {
            if found.enabled {
                None
            } else {
                Some(Reply::TableNotEnabled)
            }
        }
    }
}

/// Why a table can't be enabled, dropped or restored.
fn unless_disabled(machine: &Plain, table: &TableName) -> Option<Reply>
    ensures { result ≡ first (not_found (state_of machine.now) table.now ∷ not_disabled (state_of machine.now) table.now ∷ []) }
{
    match table_at(machine.state.tables.as_slice(), table) {
        None => Some(Reply::TableNotFound),
        Some(found) => {
            if found.enabled {
                Some(Reply::TableNotDisabled)
            } else {
                None
            }
        }
    }
}

/// Whether a table has a family.
fn has_family(families: &[(FamilyName, u32)], family: &FamilyName) -> bool
    ensures { result ≡ list_any (λ f. same_bytes f.0 family.now) families.now }
{
    for line in families {
        if line.0 == *family {
            return true;
        }
    }
    false
}

/// Why a cell can't be put.
fn put_refusal(
    machine: &Plain,
    table: &TableName,
    family: &FamilyName,
) -> Result<Option<Reply>, NoMemory>
    ensures { IfOk result (λ why. why ≡ first (not_found (state_of machine.now) table.now ∷ not_enabled (state_of machine.now) table.now ∷ when (not (has_family (state_of machine.now) table.now family.now)) (UnknownFamily family.now) ∷ [])) }
{
    match table_at(machine.state.tables.as_slice(), table) {
        None => Ok(Some(Reply::TableNotFound)),
        Some(found) => {
            if !found.enabled {
                return Ok(Some(Reply::TableNotEnabled));
            }
            if has_family(found.schema.families.as_slice(), family) {
                return Ok(None);
            }
            Ok(Some(Reply::UnknownFamily(family.copy()?)))
        }
    }
}

/// Why a table can't be made.
fn create_refusal(
    alloc: Global,
    machine: &Plain,
    table: &TableName,
    families: &[FamilyName],
    splits: &[Blob],
) -> Result<Option<Reply>, NoMemory>
    ensures { IfOk result (λ why. why ≡ first (when (is_table (state_of machine.now) table.now) TableExists ∷ option_map DuplicateFamily (repeated families.now) ∷ when (not (are_splits splits.now)) BadSplitKey ∷ [])) }
{
    if table_at(machine.state.tables.as_slice(), table).is_some() {
        return Ok(Some(Reply::TableExists));
    }
    if let Some(family) = repeated(families) {
        return Ok(Some(Reply::DuplicateFamily(family.copy()?)));
    }
    if are_splits(alloc, splits)? {
        return Ok(None);
    }
    Ok(Some(Reply::BadSplitKey))
}

/// Whether the region of a hold on one is open.
fn is_open_hold(alloc: Global, machine: &Plain, hold: &Hold) -> Result<bool, NoMemory>
    ensures { IfOk result (λ yes. yes ≡ is_open_hold (state_of machine.now) hold.now) }
{
    match hold {
        Hold::Region(key) => match table_at(machine.state.tables.as_slice(), &key.table) {
            Some(table) => is_open(alloc, table.regions.as_slice(), &key.region),
            None => Ok(false),
        },
        _ => Ok(true),
    }
}

/// Whether each region that is held is open.
fn are_open(alloc: Global, machine: &Plain, holds: &[Hold]) -> Result<bool, NoMemory>
    ensures { IfOk result (λ yes. yes ≡ list_all (is_open_hold (state_of machine.now)) holds.now) }
{
    for hold in holds {
        if !is_open_hold(alloc, machine, hold)? {
            return Ok(false);
        }
    }
    Ok(true)
}

/// Whether a job splits a region of a table.
fn is_dividing(table: &TableName, job: &Job) -> bool
    ensures { result ≡ is_dividing table.now job.now }
{
    match job {
        Job::Split { table: other, .. } => *other == *table,
        _ => false,
    }
}

/// Whether an activity is still to add two regions to a table.
fn is_adding(
    alloc: Global,
    machine: &Plain,
    table: &TableName,
    one: &Live,
) -> Result<bool, NoMemory>
    ensures { IfOk result (λ yes. cond yes 2 0 ≡ adds (state_of machine.now) table.now one.now) }
{
    let are_open = are_open(alloc, machine, one.holds.as_slice())?;
    Ok(is_dividing(table, &one.job) && are_open)
}

/// The regions that all activities are still to add to a table.
fn all_adds(alloc: Global, machine: &Plain, table: &TableName) -> Result<u128, NoMemory>
    ensures { IfOk result (λ count. (count ≡ sum_by (adds (state_of machine.now) table.now) machine.now.state.live) × (count ≤ 2 ^ 65)) }
{
    let mut count: u128 = 0;
    for one in machine.state.live.as_slice() {
        if is_adding(alloc, machine, table, one)? {
            count += 2;
        }
    }
    Ok(count)
}

/// Why a region can't be split at a row.
fn split_refusal(
    alloc: Global,
    machine: &Plain,
    table: &TableName,
    row: &Blob,
) -> Result<Option<Reply>, NoMemory>
    ensures { IfOk result (λ why. why ≡ first (refusals no_files (state_of machine.now) (jobs.Split table.now row.now))) }
{
    let Some(found) = table_at(machine.state.tables.as_slice(), table) else {
        return Ok(Some(Reply::TableNotFound));
    };
    if !found.enabled {
        return Ok(Some(Reply::TableNotEnabled));
    }
    if is_start(row, region_of(found.regions.as_slice(), row)) {
        return Ok(Some(Reply::BadSplitKey));
    }
    let count = found.regions.len() as u128 + all_adds(alloc, machine, table)?;
    if 1000 < count + 2 {
        return Ok(Some(Reply::TooManyRegions));
    }
    Ok(None)
}

/// Whether a row is the start of its region.
fn is_start(row: &Blob, region: Option<&RegionInfo>) -> bool
    ensures { result ≡ is_start_of row.now (option_copied region.entry) }
{
    match region {
        Some(info) => info.start == *row,
        None => false,
    }
}

/// Whether an activity uses a snapshot.
fn is_user(one: &Live, name: &SnapName) -> bool
    ensures { result ≡ list_any (uses name.now) one.now.holds }
{
    for hold in one.holds.as_slice() {
        if uses(name, hold) {
            return true;
        }
    }
    false
}

/// Whether a snapshot is used by a hold.
fn uses(name: &SnapName, hold: &Hold) -> bool
    ensures { result ≡ uses name.now hold.now }
{
    match hold {
        Hold::Use(used) => used == name,
        _ => false,
    }
}

/// The least activity that uses a snapshot.
fn least_user<'a>(live: &'a [Live], name: &SnapName) -> Option<&'a Live>
    ensures { option_copied result ≡ least (λ l. list_any (uses name.now) l.holds) live.now }
{
    let mut best = None;
    let mut i = live.len();
    while i > 0 {
        i -= 1;
        if is_user(&live[i], name) {
            best = lesser(&live[i], best);
        }
    }
    best
}

/// The one of the lesser number.
fn lesser<'a>(one: &'a Live, other: Option<&'a Live>) -> Option<&'a Live>
    ensures { option_copied result ≡ lesser one.now (option_copied other.entry) }
{
    match other {
        Some(best) => {
            if best.actor.0 < one.actor.0 {
                Some(best)
            } else {
                Some(one)
            }
        }
        None => Some(one),
    }
}

/// The names that holds take.
fn taken_by(alloc: Global, holds: &[Hold]) -> Result<Items<SnapName>, NoMemory>
    ensures { IfOk result (λ names. names ≡ taken_by holds.now) }
{
    let mut names = Vec::new(alloc);
    for hold in holds {
        if let Hold::Take(name, _) = hold {
            names.push(name.copy()?)?;
        }
    }
    Ok(Items::from_vec(names))
}

/// The names that activities take.
fn taken_names(alloc: Global, live: &[Live]) -> Result<Items<SnapName>, NoMemory>
    ensures { IfOk result (λ names. names ≡ taken_names live.now) }
{
    let mut all = Items::new(alloc);
    for one in live {
        let more = taken_by(alloc, one.holds.as_slice())?;
        all = joined(all, more.as_slice())?;
    }
    Ok(all)
}

/// The lesser of two names.
fn lesser_name<'a>(one: &'a SnapName, other: Option<&'a SnapName>) -> Option<&'a SnapName>
    ensures { option_copied result ≡ lesser_name one.now (option_copied other.entry) }
{
    match other {
        Some(best) => { if *best < *one { Some(best) } else { Some(one) } }
        None => Some(one),
    }
}

/// The least name.
fn least_name(names: &[SnapName]) -> Option<&SnapName>
    ensures { option_copied result ≡ least_name names.now }
{
    let mut best = None;
    let mut i = names.len();
    while i > 0 {
        i -= 1;
        best = lesser_name(&names[i], best);
    }
    best
}

/// Why the archive can't be cleaned.
fn clean_refusal(alloc: Global, live: &[Live]) -> Result<Option<Reply>, NoMemory>
    ensures { IfOk result (λ why. why ≡ option_map Taking (least_name (taken_names live.now))) }
{
    let taken = taken_names(alloc, live)?;
    match least_name(taken.as_slice()) {
        Some(name) => Ok(Some(Reply::Taking(name.copy()?))),
        None => Ok(None),
    }
}

/// Why a snapshot can't be taken.
fn take_refusal(machine: &Plain, table: &TableName, name: &SnapName) -> Option<Reply>
    ensures { result ≡ first (refusals no_files (state_of machine.now) (jobs.Snapshot table.now name.now)) }
{
    if table_at(machine.state.tables.as_slice(), table).is_none() {
        return Some(Reply::TableNotFound);
    }
    if snapshot_at(&machine.snapshots, name).is_some() {
        return Some(Reply::SnapshotExists);
    }
    None
}

/// Why a snapshot can't be deleted.
fn delete_refusal(machine: &Plain, name: &SnapName) -> Option<Reply>
    ensures { result ≡ first (refusals no_files (state_of machine.now) (jobs.DeleteSnapshot name.now)) }
{
    if snapshot_at(&machine.snapshots, name).is_none() {
        return Some(Reply::SnapshotNotFound);
    }
    match least_user(machine.state.live.as_slice(), name) {
        Some(user) => Some(Reply::InUse(user.actor)),
        None => None,
    }
}

/// Why a snapshot can't be cloned.
fn clone_refusal(machine: &Plain, name: &SnapName, table: &TableName) -> Option<Reply>
    ensures { result ≡ first (refusals no_files (state_of machine.now) (jobs.Clone name.now table.now)) }
{
    if snapshot_at(&machine.snapshots, name).is_none() {
        return Some(Reply::SnapshotNotFound);
    }
    if table_at(machine.state.tables.as_slice(), table).is_some() {
        return Some(Reply::TableExists);
    }
    None
}

/// Why a snapshot can't be restored.
fn restore_refusal(machine: &Plain, name: &SnapName) -> Option<Reply>
    ensures { result ≡ first (refusals no_files (state_of machine.now) (jobs.Restore name.now)) }
{
    match snapshot_at(&machine.snapshots, name) {
        None => Some(Reply::SnapshotNotFound),
        Some(snapshot) => unless_disabled(machine, &snapshot.schema.table),
    }
}

/// The first refusal of a job that holds.
pub(crate) fn refusal(alloc: Global, machine: &Plain, job: &Job) -> Result<Option<Reply>, NoMemory>
    ensures { IfOk result (λ why. why ≡ first (refusals no_files (state_of machine.now) job.now)) }
{
    match job {
        Job::ListSnapshots => Ok(None),
        Job::Janitor => Ok(None),
        Job::Clean => clean_refusal(alloc, machine.state.live.as_slice()),
        Job::Create {
            table,
            families,
            splits,
            ..
        } => {
            create_refusal(
                alloc,
                machine,
                table,
                families.as_slice(),
                splits.as_slice(),
            )
        }
        Job::Put { table, cell } => put_refusal(machine, table, &cell.family),
        Job::Split { table, row } => split_refusal(alloc, machine, table, row),
        Job::Scan { table } => Ok(unless_enabled(machine, table)),
        Job::Flush { table } => Ok(unless_enabled(machine, table)),
        Job::Compact { table, .. } => Ok(unless_enabled(machine, table)),
        Job::Discharge { table } => Ok(unless_enabled(machine, table)),
        Job::Disable { table } => Ok(unless_enabled(machine, table)),
        Job::Bulk { table, .. } => Ok(unless_enabled(machine, table)),
        Job::Enable { table } => Ok(unless_disabled(machine, table)),
        Job::Drop { table } => Ok(unless_disabled(machine, table)),
        Job::Snapshot { table, snapshot } => Ok(take_refusal(machine, table, snapshot)),
        Job::DeleteSnapshot { snapshot } => Ok(delete_refusal(machine, snapshot)),
        Job::Clone { snapshot, table } => Ok(clone_refusal(machine, snapshot, table)),
        Job::Restore { snapshot } => Ok(restore_refusal(machine, snapshot)),
    }
}

/// What is answered where nothing refuses a job.
pub(crate) fn granted(alloc: Global, machine: &Plain, job: &Job) -> Result<Reply, NoMemory>
    ensures { IfOk result (λ answer. answer ≡ granted (state_of machine.now) job.now) }
{
    match job {
        Job::ListSnapshots => Ok(Reply::Snapshots(names(alloc, &machine.snapshots)?)),
        _ => Ok(Reply::Fine),
    }
}
