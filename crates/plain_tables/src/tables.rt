//! The tables after an event.

ghost use Rattle.std.specs.Prelude.{◌≡◌, ◌∷◌, [], IfOk, option_copied, true};
ghost use Rattle.std.specs.FinMap as map;
ghost use Rattle.plain_model.specs.TableEvents.{tables_on, table_of, with_region, with_split, without_regions, with_copy, with_restored};
ghost use Rattle.plain_model.specs.Names.{change};
ghost use Rattle.plain_tables.specs.ByName.{by_entry, by_name};

use crate::regions::{with_region, with_split, without_regions};
use crate::snapshots::{Snapshots, snapshot_at};
use hb_names::{Encoded, TableName};
use hb_records::{RegionInfo, TableSchema};
use hb_wire::{Copied, Items, NoMemory};
use plain_cells::lists::joined;
use plain_model::{Event, PlainSnapshot, PlainTable};
use std::alloc::Global;

/// The tables by name, the last that was set first; one that is dropped has none.
pub type Tables = Items<(TableName, Option<PlainTable>)>;

/// The table of a name.
pub fn table_at<'a>(
    tables: &'a [(TableName, Option<PlainTable>)],
    name: &TableName,
) -> Option<&'a PlainTable>
    ensures { option_copied result ≡ map.get (by_name tables.now) name.now }
{
    for entry in tables {
        if *name == entry.0 {
            return entry.1.as_ref();
        }
    }
    None
}

/// The tables with that of one name set.
fn with_table(
    alloc: Global,
    tables: &Tables,
    name: &TableName,
    table: Option<PlainTable>,
) -> Result<Tables, NoMemory>
    ensures { IfOk result (λ next. next ≡ (name.now, table) ∷ tables.now) }
{
    let first = vec![in alloc; (name.copy()?, table)]?;
    joined(Items::from_vec(first), tables.as_slice())
}

/// A table whose regions are all open.
fn open_table(
    alloc: Global,
    enabled: bool,
    schema: &TableSchema,
    regions: &Items<RegionInfo>,
) -> Result<PlainTable, NoMemory>
    ensures { IfOk result (λ table. table ≡ table_of enabled schema.now regions.now) }
{
    let mut open = Vec::new(alloc);
    for region in regions.as_slice() {
        open.push((region.copy()?, false))?;
    }
    Ok(PlainTable {
        enabled,
        schema: schema.copy()?,
        regions: Items::from_vec(open),
    })
}

/// The tables with one enabled or disabled.
fn with_state(
    alloc: Global,
    tables: &Tables,
    name: &TableName,
    enabled: bool,
) -> Result<Tables, NoMemory>
    ensures { IfOk result (λ next. by_name next ≡ change name.now (λ x. record x { enabled = enabled }) (by_name tables.now)) }
{
    match table_at(tables.as_slice(), name) {
        Some(table) => {
            let table = PlainTable {
                enabled,
                schema: table.schema.copy()?,
                regions: table.regions.copy()?,
            };
            with_table(alloc, tables, name, Some(table))
        }
        None => tables.copy(),
    }
}

/// A table with other regions.
fn with_regions(
    table: &PlainTable,
    regions: Items<(RegionInfo, bool)>,
) -> Result<PlainTable, NoMemory>
    ensures { IfOk result (λ next. next ≡ record { enabled = table.now.enabled; schema = table.now.schema; regions = regions }) }
{
    Ok(PlainTable {
        enabled: table.enabled,
        schema: table.schema.copy()?,
        regions,
    })
}

/// The tables with a region of one split.
fn with_halves(
    alloc: Global,
    tables: &Tables,
    name: &TableName,
    parent: &Encoded,
    low: &RegionInfo,
    high: &RegionInfo,
) -> Result<Tables, NoMemory>
    ensures { IfOk result (λ next. by_name next ≡ change name.now (λ x. record x { regions = with_region low.now (with_region high.now (with_split (parent.now ∷ []) x.regions)) }) (by_name tables.now)) }
{
    match table_at(tables.as_slice(), name) {
        Some(table) => {
            let parents = vec![in alloc; parent.copy()?]?;
            let split = with_split(alloc, parents.as_slice(), table.regions.as_slice())?;
            let with_high = with_region(high.copy()?, split)?;
            let regions = with_region(low.copy()?, with_high)?;
            with_table(alloc, tables, name, Some(with_regions(table, regions)?))
        }
        None => tables.copy(),
    }
}

/// The tables with some regions of one taken out.
fn with_fewer(
    alloc: Global,
    tables: &Tables,
    name: &TableName,
    removed: &[Encoded],
) -> Result<Tables, NoMemory>
    ensures { IfOk result (λ next. by_name next ≡ change name.now (λ x. record x { regions = without_regions removed.now x.regions }) (by_name tables.now)) }
{
    match table_at(tables.as_slice(), name) {
        Some(table) => {
            let regions = without_regions(alloc, removed, table.regions.as_slice())?;
            with_table(alloc, tables, name, Some(with_regions(table, regions)?))
        }
        None => tables.copy(),
    }
}

/// The tables with a snapshot's table under a name.
fn with_copy(
    alloc: Global,
    tables: &Tables,
    name: &TableName,
    regions: &Items<RegionInfo>,
    snapshot: Option<&PlainSnapshot>,
) -> Result<Tables, NoMemory>
    ensures { IfOk result (λ next. by_name next ≡ with_copy name.now true regions.now (option_copied snapshot.entry) (by_name tables.now)) }
{
    match snapshot {
        Some(snapshot) => {
            let schema = TableSchema {
                table: name.copy()?,
                families: snapshot.schema.families.copy()?,
            };
            with_table(
                alloc,
                tables,
                name,
                Some(open_table(alloc, true, &schema, regions)?),
            )
        }
        None => tables.copy(),
    }
}

/// The tables with a snapshot's own table restored.
fn with_restored(
    alloc: Global,
    tables: &Tables,
    regions: &Items<RegionInfo>,
    snapshot: Option<&PlainSnapshot>,
) -> Result<Tables, NoMemory>
    ensures { IfOk result (λ next. by_name next ≡ with_restored regions.now (option_copied snapshot.entry) (by_name tables.now)) }
{
    match snapshot {
        Some(snapshot) => {
            let schema = &snapshot.schema;
            with_table(
                alloc,
                tables,
                &schema.table,
                Some(open_table(alloc, false, schema, regions)?),
            )
        }
        None => tables.copy(),
    }
}

/// The tables after an event.
pub fn tables_after(
    alloc: Global,
    tables: &Tables,
    snapshots: &Snapshots,
    event: &Event,
) -> Result<Tables, NoMemory>
    ensures { IfOk result (λ next. by_name next ≡ tables_on event.now (by_entry snapshots.now.entries) (by_name tables.now)) }
{
    match event {
        Event::Enable(table) => with_state(alloc, tables, table, true),
        Event::Disable(table) => with_state(alloc, tables, table, false),
        Event::Drop(table) => with_table(alloc, tables, table, None),
        Event::Create { schema, regions } => {
            let table = open_table(alloc, true, schema, regions)?;
            with_table(alloc, tables, &schema.table, Some(table))
        }
        Event::Split {
            table,
            parent,
            low,
            high,
        } => with_halves(alloc, tables, table, parent, low, high),
        Event::Remove { table, regions } => with_fewer(alloc, tables, table, regions.as_slice()),
        Event::Clone {
            snapshot,
            table,
            regions,
        } => {
            with_copy(
                alloc,
                tables,
                table,
                regions,
                snapshot_at(snapshots, snapshot),
            )
        }
        Event::Restore { snapshot, regions } => {
            with_restored(alloc, tables, regions, snapshot_at(snapshots, snapshot))
        }
        _ => tables.copy(),
    }
}
