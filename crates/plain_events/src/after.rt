//! The parts of a state after an event.

ghost use Rattle.std.specs.Prelude.{◌≡◌, ◌∷◌, ◌++◌, [], IfOk, option_copied, unwrap_or};
ghost use Rattle.std.specs.FinMap as map;
ghost use Rattle.plain_model.specs.CellEvents.{copies_of, families_in, compacted, each_with, under, from, stable_on, mem_on, frozen_on, seq_on, kept_on};
ghost use Rattle.plain_model.specs.LiveEvents.{captures_on, noted_on, region_at, copy_of};
ghost use Rattle.plain_model.specs.Keys.{key_of, key_at, set_at};
ghost use Rattle.plain_events.specs.Parts.{by_region, by_actor};
ghost use Rattle.plain_tables.specs.ByName.{by_name, by_entry};
ghost use Rattle.plain_events.specs.State.{state_with, HasNumber};

use crate::activities::{Kept, keeping, kept_by, without_actor};
use crate::by_region::{ByRegion, cells_at, value_of, with_value};
use crate::copies::{each_with, with_cells, with_numbers};
use crate::state::State;
use hb_cell::Cell;
use hb_names::{Encoded, FamilyName, TableName};
use hb_records::RegionInfo;
use hb_wire::{Copied, Items, NoMemory};
use plain_cells::cells::{compacted, from, greatest, under};
use plain_cells::lists::{back, front, joined};
use plain_model::{Actor, Event, PlainSnapshot, PlainTable, RegionCopy, RegionKey};
use plain_tables::keys::key_of;
use plain_tables::regions::region_in;
use plain_tables::snapshots::{Snapshots, snapshot_at};
use plain_tables::tables::{Tables, table_at};
use std::alloc::Global;

/// The copies of a snapshot.
fn copies_of<'a>(snapshot: Option<&'a PlainSnapshot>) -> &'a [RegionCopy]
    ensures { result.now ≡ copies_of (option_copied snapshot.entry) }
{
    match snapshot {
        Some(snapshot) => snapshot.regions.as_slice(),
        None => &[],
    }
}

/// The families of a table.
fn families_in<'a>(table: Option<&'a PlainTable>) -> &'a [(FamilyName, u32)]
    ensures { result.now ≡ families_in (option_copied table.entry) }
{
    match table {
        Some(table) => table.schema.families.as_slice(),
        None => &[],
    }
}

/// Cells, and more behind them.
fn with_cells_behind(alloc: Global, cells: &[Cell], more: &[Cell]) -> Result<Items<Cell>, NoMemory>
    ensures { IfOk result (λ all. all ≡ cells.now ++ more.now) }
{
    joined(joined(Items::new(alloc), cells)?, more)
}

/// A key of a table's region.
fn key_at(table: &TableName, region: &Encoded) -> Result<RegionKey, NoMemory>
    ensures { IfOk result (λ key. key ≡ key_at table.now region.now) }
{
    Ok(RegionKey {
        table: table.copy()?,
        region: region.copy()?,
    })
}

/// The values of two halves in front of the others.
fn with_halves<T: Copied>(
    alloc: Global,
    low: &RegionInfo,
    low_value: T,
    high: &RegionInfo,
    high_value: T,
    entries: &ByRegion<T>,
) -> Result<ByRegion<T>, NoMemory>
    ensures { IfOk result (λ all. all ≡ (key_of low.now, low_value) ∷ (key_of high.now, high_value) ∷ entries.now) }
{
    let with_high = with_value(alloc, key_of(alloc, high)?, high_value, entries)?;
    with_value(alloc, key_of(alloc, low)?, low_value, &with_high)
}

/// The cells of files after a split.
fn split_cells(
    alloc: Global,
    state: &State,
    table: &TableName,
    parent: &Encoded,
    low: &RegionInfo,
    high: &RegionInfo,
) -> Result<ByRegion<Items<Cell>>, NoMemory>
    ensures { IfOk result (λ all. by_region [] all ≡ set_at (key_of low.now) (under high.now.start (by_region [] state.now.stable (key_at table.now parent.now))) (set_at (key_of high.now) (from high.now.start (by_region [] state.now.stable (key_at table.now parent.now))) (by_region [] state.now.stable))) }
{
    let key = key_at(table, parent)?;
    let cells = cells_at(state.stable.as_slice(), &key);
    let below = under(alloc, &high.start, cells)?;
    let above = from(alloc, &high.start, cells)?;
    with_halves(alloc, low, below, high, above, &state.stable)
}

/// The cells of a region's files after a major compaction.
fn major_cells(
    alloc: Global,
    state: &State,
    actor: Actor,
    region: &RegionKey,
) -> Result<Items<Cell>, NoMemory>
    ensures { IfOk result (λ all. all ≡ compacted (families_in (map.get (by_name state.now.tables) region.now.table)) (unwrap_or (by_actor state.now.noted actor.0 region.now) 0) (by_region [] state.now.stable region.now)) }
{
    let count = match kept_by(state.noted.as_slice(), actor, region) {
        Some(count) => *count,
        None => 0,
    };
    let families = families_in(table_at(state.tables.as_slice(), &region.table));
    compacted(
        alloc,
        families,
        count,
        cells_at(state.stable.as_slice(), region),
    )
}

/// The cells of files after an event.
#[tactic(auto, using(crate::proofs::Parts::set_before))]
pub(crate) fn stable_after(
    alloc: Global,
    state: &State,
    snapshots: &Snapshots,
    event: &Event,
) -> Result<ByRegion<Items<Cell>>, NoMemory>
    ensures { IfOk result (λ next. by_region [] next ≡ stable_on event.now (by_name state.now.tables) (by_entry snapshots.now.entries) (by_region [] state.now.mem) (by_region 0 state.now.frozen) (by_actor state.now.noted) (by_region [] state.now.stable)) }
{
    let stable = &state.stable;
    match event {
        Event::Flush(region) => {
            let frozen = *value_of(state.frozen.as_slice(), region, &0);
            let flushed = front(alloc, cells_at(state.mem.as_slice(), region), frozen)?;
            let cells = with_cells_behind(
                alloc,
                cells_at(stable.as_slice(), region),
                flushed.as_slice(),
            )?;
            with_value(alloc, region.copy()?, cells, stable)
        }
        Event::Major { actor, region } => {
            let cells = major_cells(alloc, state, *actor, region)?;
            with_value(alloc, region.copy()?, cells, stable)
        }
        Event::Bulk { region, cells } => {
            let cells = with_cells_behind(
                alloc,
                cells_at(stable.as_slice(), region),
                cells.as_slice(),
            )?;
            with_value(alloc, region.copy()?, cells, stable)
        }
        Event::Create { regions, .. } => {
            let none = Items::new(alloc);
            joined(
                each_with(alloc, &none, regions.as_slice())?,
                stable.as_slice(),
            )
        }
        Event::Split {
            table,
            parent,
            low,
            high,
        } => split_cells(alloc, state, table, parent, low, high),
        Event::Clone {
            snapshot,
            regions,
            ..
        } => {
            let copies = copies_of(snapshot_at(snapshots, snapshot));
            joined(
                with_cells(alloc, regions.as_slice(), copies)?,
                stable.as_slice(),
            )
        }
        Event::Restore { snapshot, regions } => {
            let copies = copies_of(snapshot_at(snapshots, snapshot));
            joined(
                with_cells(alloc, regions.as_slice(), copies)?,
                stable.as_slice(),
            )
        }
        _ => stable.copy(),
    }
}

/// The values of these regions all set to one, in front of the others.
fn all_set<T: Copied>(
    alloc: Global,
    value: &T,
    regions: &Items<RegionInfo>,
    entries: &ByRegion<T>,
) -> Result<ByRegion<T>, NoMemory>
    ensures { IfOk result (λ all. all ≡ each_with value.now regions.now ++ entries.now) }
{
    joined(
        each_with(alloc, value, regions.as_slice())?,
        entries.as_slice(),
    )
}

/// The unflushed cells after an event.
#[tactic(auto, using(crate::proofs::Parts::set_before))]
pub(crate) fn mem_after(
    alloc: Global,
    state: &State,
    event: &Event,
) -> Result<ByRegion<Items<Cell>>, NoMemory>
    ensures { IfOk result (λ next. by_region [] next ≡ mem_on event.now (by_region 0 state.now.frozen) (by_region [] state.now.mem)) }
{
    let mem = &state.mem;
    let none = Items::new(alloc);
    match event {
        Event::Put { region, cell } => {
            let mut cells = joined(Items::new(alloc), cells_at(mem.as_slice(), region))?.into_vec();
            cells.push(cell.copy()?)?;
            with_value(alloc, region.copy()?, Items::from_vec(cells), mem)
        }
        Event::Flush(region) => {
            let frozen = *value_of(state.frozen.as_slice(), region, &0);
            let left = back(alloc, cells_at(mem.as_slice(), region), frozen)?;
            with_value(alloc, region.copy()?, left, mem)
        }
        Event::Create { regions, .. } => all_set(alloc, &none, regions, mem),
        Event::Split { low, high, .. } => {
            with_halves(alloc, low, Items::new(alloc), high, Items::new(alloc), mem)
        }
        Event::Clone { regions, .. } => all_set(alloc, &none, regions, mem),
        Event::Restore { regions, .. } => all_set(alloc, &none, regions, mem),
        Event::Stop => Ok(Items::new(alloc)),
        _ => mem.copy(),
    }
}

/// The frozen counts after an event.
#[tactic(auto, using(crate::proofs::Parts::set_before))]
pub(crate) fn frozen_after(
    alloc: Global,
    state: &State,
    event: &Event,
) -> Result<ByRegion<usize>, NoMemory>
    ensures { IfOk result (λ next. by_region 0 next ≡ frozen_on event.now (by_region [] state.now.mem) (by_region 0 state.now.frozen)) }
{
    let frozen = &state.frozen;
    match event {
        Event::Freeze(region) => {
            let count = cells_at(state.mem.as_slice(), region).len();
            with_value(alloc, region.copy()?, count, frozen)
        }
        Event::Flush(region) => with_value(alloc, region.copy()?, 0, frozen),
        Event::Create { regions, .. } => all_set(alloc, &0, regions, frozen),
        Event::Split { low, high, .. } => with_halves(alloc, low, 0, high, 0, frozen),
        Event::Clone { regions, .. } => all_set(alloc, &0, regions, frozen),
        Event::Restore { regions, .. } => all_set(alloc, &0, regions, frozen),
        Event::Stop => Ok(Items::new(alloc)),
        _ => frozen.copy(),
    }
}

/// The last numbers after an event.
#[tactic(auto, using(crate::proofs::Parts::set_before))]
pub(crate) fn seq_after(
    alloc: Global,
    state: &State,
    snapshots: &Snapshots,
    event: &Event,
) -> Result<ByRegion<u64>, NoMemory>
    requires { HasNumber event.now (state_with state.now snapshots.now.entries) }
    ensures { IfOk result (λ next. by_region 0 next ≡ seq_on event.now (by_entry snapshots.now.entries) (by_region 0 state.now.kept) (by_region 0 state.now.seq)) }
{
    let seq = &state.seq;
    match event {
        Event::Put { region, .. } => {
            let number = *value_of(seq.as_slice(), region, &0);
            with_value(alloc, region.copy()?, number + 1, seq)
        }
        Event::Draw(region) => {
            let number = *value_of(seq.as_slice(), region, &0);
            with_value(alloc, region.copy()?, number + 1, seq)
        }
        Event::Create { regions, .. } => all_set(alloc, &0, regions, seq),
        Event::Split {
            table,
            parent,
            low,
            high,
        } => {
            let number = *value_of(state.kept.as_slice(), &key_at(table, parent)?, &0);
            with_halves(alloc, low, number, high, number, seq)
        }
        Event::Clone {
            snapshot,
            regions,
            ..
        } => {
            let copies = copies_of(snapshot_at(snapshots, snapshot));
            joined(
                with_numbers(alloc, regions.as_slice(), copies)?,
                seq.as_slice(),
            )
        }
        Event::Restore { snapshot, regions } => {
            let copies = copies_of(snapshot_at(snapshots, snapshot));
            joined(
                with_numbers(alloc, regions.as_slice(), copies)?,
                seq.as_slice(),
            )
        }
        Event::Stop => state.kept.copy(),
        _ => seq.copy(),
    }
}

/// The numbers that a stop leaves, after an event.
#[tactic(auto, using(crate::proofs::Parts::set_before))]
pub(crate) fn kept_after(
    alloc: Global,
    state: &State,
    snapshots: &Snapshots,
    event: &Event,
) -> Result<ByRegion<u64>, NoMemory>
    ensures { IfOk result (λ next. by_region 0 next ≡ kept_on event.now (by_entry snapshots.now.entries) (by_region [] state.now.mem) (by_region 0 state.now.frozen) (by_region 0 state.now.kept)) }
{
    let kept = &state.kept;
    match event {
        Event::Flush(region) => {
            let number = *value_of(kept.as_slice(), region, &0);
            let frozen = *value_of(state.frozen.as_slice(), region, &0);
            let flushed = front(alloc, cells_at(state.mem.as_slice(), region), frozen)?;
            with_value(
                alloc,
                region.copy()?,
                greatest(number, flushed.as_slice()),
                kept,
            )
        }
        Event::Bulk { region, cells } => {
            let number = *value_of(kept.as_slice(), region, &0);
            with_value(
                alloc,
                region.copy()?,
                greatest(number, cells.as_slice()),
                kept,
            )
        }
        Event::Create { regions, .. } => all_set(alloc, &0, regions, kept),
        Event::Split {
            table,
            parent,
            low,
            high,
        } => {
            let number = *value_of(kept.as_slice(), &key_at(table, parent)?, &0);
            with_halves(alloc, low, number, high, number, kept)
        }
        Event::Clone {
            snapshot,
            regions,
            ..
        } => {
            let copies = copies_of(snapshot_at(snapshots, snapshot));
            joined(
                with_numbers(alloc, regions.as_slice(), copies)?,
                kept.as_slice(),
            )
        }
        Event::Restore { snapshot, regions } => {
            let copies = copies_of(snapshot_at(snapshots, snapshot));
            joined(
                with_numbers(alloc, regions.as_slice(), copies)?,
                kept.as_slice(),
            )
        }
        _ => kept.copy(),
    }
}

/// The region of a key in its table's set.
fn region_at<'a>(
    alloc: Global,
    tables: &'a Tables,
    key: &RegionKey,
) -> Result<Option<&'a RegionInfo>, NoMemory>
    ensures { IfOk result (λ found. option_copied found ≡ region_at (by_name tables.now) key.now) }
{
    match table_at(tables.as_slice(), &key.table) {
        Some(table) => region_in(alloc, table.regions.as_slice(), &key.region),
        None => Ok(None),
    }
}

/// A region copied by value, where it is in its table's set.
fn copy_of_region(
    alloc: Global,
    state: &State,
    key: &RegionKey,
) -> Result<Option<RegionCopy>, NoMemory>
    ensures { IfOk result (λ found. found ≡ copy_of (by_region [] state.now.stable key.now) (by_region 0 state.now.kept key.now) (region_at (by_name state.now.tables) key.now)) }
{
    match region_at(alloc, &state.tables, key)? {
        Some(region) => {
            let cells = joined(Items::new(alloc), cells_at(state.stable.as_slice(), key))?;
            let number = *value_of(state.kept.as_slice(), key, &0);
            Ok(Some(RegionCopy {
                region: region.copy()?,
                cells,
                number,
            }))
        }
        None => Ok(None),
    }
}

/// The captures after an event.
#[tactic(auto, using(crate::proofs::Parts::cleared_by))]
pub(crate) fn captures_after(
    alloc: Global,
    state: &State,
    event: &Event,
) -> Result<Kept<RegionCopy>, NoMemory>
    ensures { IfOk result (λ next. by_actor next ≡ captures_on event.now (by_name state.now.tables) (by_region [] state.now.stable) (by_region 0 state.now.kept) (by_actor state.now.captures)) }
{
    let captures = &state.captures;
    match event {
        Event::Capture { actor, region } => {
            let copy = copy_of_region(alloc, state, region)?;
            keeping(alloc, *actor, region, copy, captures)
        }
        Event::At {
            actor,
            job: None,
            ..
        } => without_actor(alloc, *actor, captures),
        Event::Stop => Ok(Items::new(alloc)),
        _ => captures.copy(),
    }
}

/// What major compactions noted, after an event.
#[tactic(auto, using(crate::proofs::Parts::cleared_by))]
pub(crate) fn noted_after(
    alloc: Global,
    state: &State,
    event: &Event,
) -> Result<Kept<usize>, NoMemory>
    ensures { IfOk result (λ next. by_actor next ≡ noted_on event.now (by_region [] state.now.stable) (by_actor state.now.noted)) }
{
    let noted = &state.noted;
    match event {
        Event::MajorStart { actor, region } => {
            let count = cells_at(state.stable.as_slice(), region).len();
            keeping(alloc, *actor, region, Some(count), noted)
        }
        Event::At {
            actor,
            job: None,
            ..
        } => without_actor(alloc, *actor, noted),
        Event::Stop => Ok(Items::new(alloc)),
        _ => noted.copy(),
    }
}
