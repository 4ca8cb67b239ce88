//! What happens in a script, as the machine takes it.

use crate::jobs::{holds, job};
use crate::names::{
    Made, bytes, encoded_names, family_name, push, region_info, region_infos, region_key,
    snap_name, table_name,
};
use crate::rows::{Asked, ByActor, Held, InRegion, Loaded, Region, ToTable};
use hb_cell::{Cell, Kind};
use hb_names::FamilyName;
use hb_records::{RegionInfo, TableSchema};
use hb_wire::{Blob, Items};
use plain_machine::Plain;
use plain_model::{Actor, Event};
use std::alloc::Global;

/// A cell but for its number.
#[derive(Clone, Copy)]
struct Line {
    row: &'static str,
    family: &'static str,
    qualifier: &'static str,
    ts: u64,
    kind: Kind,
    value: &'static str,
}

fn cell(alloc: Global, line: Line, seq: u64) -> Made<Cell> {
    Ok(Cell {
        row: bytes(alloc, line.row)?,
        family: bytes(alloc, line.family)?,
        qualifier: bytes(alloc, line.qualifier)?,
        ts: line.ts,
        kind: line.kind,
        seq,
        value: bytes(alloc, line.value)?,
    })
}

/// A cell is put, with the region's next number.
fn put_event(alloc: Global, machine: &Plain, region: &Region, line: Line) -> Made<Event> {
    let region = region_key(alloc, region)?;
    let seq = machine.number(&region).saturating_add(1);
    let cell = cell(alloc, line, seq)?;
    Ok(Event::Put { region, cell })
}

fn loaded_cell(alloc: Global, loaded: Loaded) -> Made<Cell> {
    let (row, family, ts, value, seq) = loaded;
    let line = Line {
        row,
        family,
        qualifier: "q",
        ts,
        kind: Kind::Put,
        value,
    };
    cell(alloc, line, seq)
}

fn load_event(alloc: Global, region: &Region, loaded: &[Loaded]) -> Made<Event> {
    let mut cells = Vec::new(alloc);
    for one in loaded {
        push(&mut cells, loaded_cell(alloc, *one)?)?;
    }
    Ok(Event::Bulk {
        region: region_key(alloc, region)?,
        cells: Items::from_vec(cells),
    })
}

/// What happens to a region.
pub(crate) fn region_event(
    alloc: Global,
    machine: &Plain,
    region: &Region,
    happens: &InRegion,
) -> Made<Event> {
    match happens {
        InRegion::Puts(row, family, qualifier, ts, value) => {
            let line = Line {
                row: *row,
                family: *family,
                qualifier: *qualifier,
                ts: *ts,
                kind: Kind::Put,
                value: *value,
            };
            put_event(alloc, machine, region, line)
        }
        InRegion::Marks(row, family, qualifier, ts, kind) => {
            let line = Line {
                row: *row,
                family: *family,
                qualifier: *qualifier,
                ts: *ts,
                kind: *kind,
                value: "",
            };
            put_event(alloc, machine, region, line)
        }
        InRegion::Draws => Ok(Event::Draw(region_key(alloc, region)?)),
        InRegion::Freezes => Ok(Event::Freeze(region_key(alloc, region)?)),
        InRegion::Flushes => Ok(Event::Flush(region_key(alloc, region)?)),
        InRegion::Loads(loaded) => load_event(alloc, region, *loaded),
    }
}

fn families(alloc: Global, named: &[(&'static str, u32)]) -> Made<Items<(FamilyName, u32)>> {
    let mut families = Vec::new(alloc);
    for (name, versions) in named {
        push(&mut families, (family_name(alloc, *name)?, *versions))?;
    }
    Ok(Items::from_vec(families))
}

fn create_event(
    alloc: Global,
    table: &str,
    named: &[(&'static str, u32)],
    regions: Items<RegionInfo>,
) -> Made<Event> {
    let schema = TableSchema {
        table: table_name(alloc, table)?,
        families: families(alloc, named)?,
    };
    Ok(Event::Create { schema, regions })
}

/// A row of four digits.
fn numbered_row(alloc: Global, number: u64) -> Made<Blob> {
    let text = format!(in alloc; "{number:04}")?;
    Ok(bytes(alloc, text.as_str())?)
}

/// The region of a number among so many: it ends where the next one starts.
fn numbered_region(alloc: Global, table: &str, number: u64, count: u64) -> Made<RegionInfo> {
    let end = number.saturating_add(1);
    Ok(RegionInfo {
        id: number,
        table: table_name(alloc, table)?,
        start: if number == 0 {
            bytes(alloc, "")?
        } else {
            numbered_row(alloc, number)?
        },
        end: if end < count {
            Some(numbered_row(alloc, end)?)
        } else {
            None
        },
    })
}

/// So many regions of a table, the second of which starts at the row 0001.
fn many_regions(alloc: Global, table: &str, count: u64) -> Made<Items<RegionInfo>> {
    let mut regions = Vec::new(alloc);
    for number in 0..count {
        push(&mut regions, numbered_region(alloc, table, number, count)?)?;
    }
    Ok(Items::from_vec(regions))
}

fn split_event(alloc: Global, parent: &Region, low: &Region, high: &Region) -> Made<Event> {
    let parent = region_key(alloc, parent)?;
    Ok(Event::Split {
        table: parent.table,
        parent: parent.region,
        low: region_info(alloc, low)?,
        high: region_info(alloc, high)?,
    })
}

fn clone_event(alloc: Global, table: &str, snapshot: &str, regions: &[Region]) -> Made<Event> {
    Ok(Event::Clone {
        snapshot: snap_name(alloc, snapshot)?,
        table: table_name(alloc, table)?,
        regions: region_infos(alloc, regions)?,
    })
}

fn restore_event(alloc: Global, snapshot: &str, regions: &[Region]) -> Made<Event> {
    Ok(Event::Restore {
        snapshot: snap_name(alloc, snapshot)?,
        regions: region_infos(alloc, regions)?,
    })
}

fn remove_event(alloc: Global, table: &str, regions: &[Region]) -> Made<Event> {
    Ok(Event::Remove {
        table: table_name(alloc, table)?,
        regions: encoded_names(alloc, regions)?,
    })
}

/// What happens to a table.
pub(crate) fn table_event(alloc: Global, table: &str, happens: &ToTable) -> Made<Event> {
    match happens {
        ToTable::Creates(families, regions) => create_event(
            alloc,
            table,
            families,
            region_infos(alloc, regions)?,
        ),
        ToTable::CreatesMany(count) => create_event(
            alloc,
            table,
            &[("f", 1)],
            many_regions(alloc, table, *count)?,
        ),
        ToTable::Enables => Ok(Event::Enable(table_name(alloc, table)?)),
        ToTable::Disables => Ok(Event::Disable(table_name(alloc, table)?)),
        ToTable::Drops => Ok(Event::Drop(table_name(alloc, table)?)),
        ToTable::Splits(parent, low, high) => split_event(alloc, parent, low, high),
        ToTable::Clones(snapshot, regions) => clone_event(alloc, table, *snapshot, *regions),
        ToTable::Restores(snapshot, regions) => restore_event(alloc, *snapshot, *regions),
        ToTable::Removes(regions) => remove_event(alloc, table, *regions),
    }
}

fn start_event(alloc: Global, actor: Actor, asked: &Asked, held: &[Held]) -> Made<Event> {
    Ok(Event::At {
        actor,
        job: Some(job(alloc, asked)?),
        holds: holds(alloc, held)?,
    })
}

/// What an activity does.
pub(crate) fn actor_event(alloc: Global, number: u32, act: &ByActor) -> Made<Event> {
    let actor = Actor(number);
    Ok(match act {
        ByActor::Starts(asked, held) => start_event(alloc, actor, asked, *held)?,
        ByActor::Captures(region) => Event::Capture {
            actor,
            region: region_key(alloc, region)?,
        },
        ByActor::Completes => Event::Complete(actor),
        ByActor::Begins(region) => Event::MajorStart {
            actor,
            region: region_key(alloc, region)?,
        },
        ByActor::Compacts(region) => Event::Major {
            actor,
            region: region_key(alloc, region)?,
        },
        ByActor::Ends => Event::At {
            actor,
            job: None,
            holds: Items::new(alloc),
        },
    })
}
