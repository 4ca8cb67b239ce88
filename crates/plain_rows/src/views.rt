//! What is seen of the machine, as texts.

use hb_cell::Cell;
use hb_names::{SnapName, TableName};
use hb_records::RegionInfo;
use hb_wire::{Blob, Copied, Items, NoMemory};
use plain_cells::lists::joined;
use plain_machine::Plain;
use plain_model::{Event, Job, PlainTable, RegionCopy, RegionKey, Reply};
use plain_tables::keys::key_of;
use shell_print::print_reply;
use std::alloc::Global;

/// How many regions a scan goes through at most.
const MAX_REGIONS: usize = 1_000;

pub(crate) fn no_text(alloc: Global) -> Blob {
    Blob::from_vec(Vec::new(alloc))
}

/// The text of some bytes: `, ` stands between its lines.
pub(crate) fn line_of(alloc: Global, bytes: &[u8]) -> Result<String, NoMemory> {
    let mut line = String::new(alloc);
    let last = bytes.len().saturating_sub(1);
    for (i, byte) in bytes.iter().enumerate() {
        if *byte != b'\n' {
            line.push(*byte as char)?;
        } else if i < last {
            line.push_str(", ")?;
        }
    }
    Ok(line)
}

/// A reply, as the shell prints it.
pub(crate) fn reply_text(alloc: Global, reply: &Reply) -> Result<Blob, NoMemory> {
    let mut text = no_text(alloc);
    print_reply(&mut text, reply)?;
    Ok(text)
}

/// The cells that a scan sees of the region that holds a row, behind those that it has seen; and the row at which the
/// next region starts, if there is one.
fn pinned_cells(
    alloc: Global,
    machine: &Plain,
    table: &TableName,
    row: &Blob,
    seen: Items<Cell>,
) -> Result<(Items<Cell>, Option<Blob>), NoMemory> {
    let Some(region) = machine.pinned_region(table, row) else {
        return Ok((seen, None));
    };
    let more = machine.view_from(row, &key_of(alloc, region)?)?;
    Ok((joined(seen, more.as_slice())?, region.end.copy()?))
}

/// The cells that a scan of a table sees, region by region.
pub(crate) fn scanned(
    alloc: Global,
    machine: &Plain,
    table: &TableName,
) -> Result<Items<Cell>, NoMemory> {
    let mut cells = Items::new(alloc);
    let mut row = no_text(alloc);
    for _ in 0..MAX_REGIONS {
        let (seen, next) = pinned_cells(alloc, machine, table, &row, cells)?;
        cells = seen;
        match next {
            Some(start) => row = start,
            None => return Ok(cells),
        }
    }
    Ok(cells)
}

/// The reply to a scan.
pub(crate) fn scan_text(
    alloc: Global,
    machine: &Plain,
    table: &TableName,
) -> Result<Blob, NoMemory> {
    match machine.pin_refusal(table) {
        Some(refused) => reply_text(alloc, &refused),
        None => reply_text(alloc, &Reply::Cells(scanned(alloc, machine, table)?)),
    }
}

fn add_number(alloc: Global, text: &mut Blob, number: u64) -> Result<(), NoMemory> {
    let digits = format!(in alloc; "{number}")?;
    text.add(digits.as_bytes())
}

/// A region's last number, and whether it is the greatest.
pub(crate) fn number_text(
    alloc: Global,
    machine: &Plain,
    region: RegionKey,
) -> Result<Blob, NoMemory> {
    let mut text = no_text(alloc);
    add_number(alloc, &mut text, machine.number(&region))?;
    if !machine.has_number(&Event::Draw(region)) {
        text.add(b" the greatest")?;
    }
    Ok(text)
}

/// Where a region starts and ends.
fn add_bounds(text: &mut Blob, region: &RegionInfo) -> Result<(), NoMemory> {
    text.add(region.start.as_slice())?;
    text.add(b"..")?;
    match &region.end {
        Some(end) => text.add(end.as_slice()),
        None => Ok(()),
    }
}

fn add_region(text: &mut Blob, region: &(RegionInfo, bool)) -> Result<(), NoMemory> {
    add_bounds(text, &region.0)?;
    if region.1 {
        text.add(b" split")?;
    }
    text.add(b"\n")
}

/// The regions of a table.
pub(crate) fn regions_text(
    alloc: Global,
    machine: &Plain,
    table: &TableName,
) -> Result<Blob, NoMemory> {
    let mut text = no_text(alloc);
    if let Some(found) = machine.table(table) {
        for region in found.regions.as_slice() {
            add_region(&mut text, region)?;
        }
    }
    Ok(text)
}

fn add_copy(alloc: Global, text: &mut Blob, copy: &RegionCopy) -> Result<(), NoMemory> {
    add_bounds(text, &copy.region)?;
    text.add(b" ")?;
    add_number(alloc, text, copy.cells.len() as u64)?;
    text.add(b" cells number ")?;
    add_number(alloc, text, copy.number)?;
    text.add(b"\n")
}

/// The regions of a snapshot.
pub(crate) fn copies_text(
    alloc: Global,
    machine: &Plain,
    name: &SnapName,
) -> Result<Blob, NoMemory> {
    let mut text = no_text(alloc);
    if let Some(found) = machine.snapshot(name) {
        for copy in found.regions.as_slice() {
            add_copy(alloc, &mut text, copy)?;
        }
    }
    Ok(text)
}

fn add_cell(text: &mut Blob, cell: &Cell) -> Result<(), NoMemory> {
    text.add(cell.row.as_slice())?;
    text.add(b"=")?;
    text.add(cell.value.as_slice())?;
    text.add(b" ")
}

/// Adds the rows and values that a scan of a table sees.
fn add_cells(text: &mut Blob, cells: &[Cell]) -> Result<(), NoMemory> {
    for cell in cells {
        add_cell(text, cell)?;
    }
    Ok(())
}

/// Adds the number of a region that is open.
fn add_open(
    alloc: Global,
    machine: &Plain,
    text: &mut Blob,
    region: &(RegionInfo, bool),
) -> Result<(), NoMemory> {
    if region.1 {
        return Ok(());
    }
    text.add(b"#")?;
    add_number(alloc, text, machine.number(&key_of(alloc, &region.0)?))?;
    text.add(b" ")
}

/// Adds the numbers of a table's open regions, and whether it is disabled.
fn add_table(
    alloc: Global,
    machine: &Plain,
    text: &mut Blob,
    table: &PlainTable,
) -> Result<(), NoMemory> {
    for region in table.regions.as_slice() {
        add_open(alloc, machine, text, region)?;
    }
    if !table.enabled {
        text.add(b"disabled ")?;
    }
    Ok(())
}

/// Adds the names of snapshots.
fn add_names(text: &mut Blob, names: &[SnapName]) -> Result<(), NoMemory> {
    for name in names {
        text.add(name.as_slice())?;
        text.add(b" ")?;
    }
    Ok(())
}

/// What there is of a table, and the snapshots.
pub(crate) fn short_text(
    alloc: Global,
    machine: &Plain,
    table: &TableName,
) -> Result<Blob, NoMemory> {
    let mut text = no_text(alloc);
    add_cells(&mut text, scanned(alloc, machine, table)?.as_slice())?;
    if let Some(found) = machine.table(table) {
        add_table(alloc, machine, &mut text, found)?;
    }
    if let Reply::Snapshots(names) = machine.reply(&Job::ListSnapshots)? {
        add_names(&mut text, names.as_slice())?;
    }
    text.truncate(text.len().saturating_sub(1));
    Ok(text)
}
