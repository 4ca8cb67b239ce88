use super::*;
use hb_cell::{Cell, Kind};
use hb_wire::{Blob, Items, NoMemory};
use hfile_meta::{Trailer, read_trailer};
use hfile_read::check;
use std::alloc::Global;
use std::test::Fail;

/// The cell of a row, family `f`, qualifier `q`, timestamp 5, sequence number 1, with a value of so many bytes.
fn cell(alloc: Global, row: &[u8], len: usize) -> Result<Cell, NoMemory> {
    let mut value = Vec::with_capacity(alloc, len)?;
    for _ in 0..len {
        value.push(b'v')?;
    }
    Ok(Cell {
        row: Blob::copy_of(alloc, row)?,
        family: Blob::copy_of(alloc, b"f")?,
        qualifier: Blob::copy_of(alloc, b"q")?,
        ts: 5,
        kind: Kind::Put,
        seq: 1,
        value: Blob::from_vec(value),
    })
}

/// So many cells with values of so many bytes, their rows in order.
fn cells(alloc: Global, count: u16, len: usize) -> Result<Vec<Cell>, NoMemory> {
    let mut cells = Vec::new(alloc);
    for number in 0..count {
        cells.push(cell(alloc, &number.to_be_bytes(), len)?)?;
    }
    Ok(cells)
}

/// Adds a cell that is within its limits.
fn added(writer: &mut HFileWriter, cell: &Cell) -> Result<(), AddError> {
    if cell.is_within_limits() {
        writer.add(cell)
    } else {
        Ok(())
    }
}

/// The file of these cells.
fn file(alloc: Global, cells: &[Cell]) -> Result<Blob, Fail> {
    let mut writer = HFileWriter::new(alloc)?;
    for cell in cells {
        added(&mut writer, cell)?;
    }
    Ok(writer.finish()?)
}

/// What the trailer of a file tells: where the file info and the root stand, how many entries the root has, how many
/// cells and levels there are, and where the last data block stands.
fn told(bytes: &[u8]) -> (u64, u64, u64, u64, u64, u64) {
    match read_trailer(bytes) {
        Ok(
            Trailer {
                info_at,
                load_at,
                data_count,
                entries,
                levels,
                last,
                ..
            },
        ) => (info_at, load_at, data_count, entries, levels, last),
        Err(_fault) => (0, 0, 0, 0, 0, 0),
    }
}

/// Whether these bytes stand at a place.
fn contains_at(bytes: &[u8], at: usize, part: &[u8]) -> bool {
    match bytes.get(at..) {
        Some(behind) => behind.starts_with(part),
        None => false,
    }
}

#[test]
fn writes_the_example(rt: HostRuntime) -> Result<(), Fail> {
    let mut cells = Vec::new(rt.alloc());
    cells.push(cell(rt.alloc(), b"r", 1)?)?;
    let file = file(rt.alloc(), cells.as_slice())?;
    let bytes = file.as_slice();
    assert!(rt;
        contains_at(
            bytes,
            0,
            b"DATABLK*\0\0\0\x19\0\0\0\x19\xff\xff\xff\xff\xff\xff\xff\xff\0\0\0\x40\0\0\0\0\x3a"
        )
    );
    assert!(rt; told(bytes) == (152, 58, 1, 1, 1, 0));
    // The root has 61 bytes, and the index of meta blocks 33; its header tells where the root stands.
    assert!(rt;
        contains_at(
            bytes,
            58,
            b"IDXROOT2\0\0\0\x1c\0\0\0\x1c\xff\xff\xff\xff\xff\xff\xff\xff\0\0\0\x40\0\0\0\0\x3d"
        )
    );
    assert!(rt;
        contains_at(
            bytes,
            119,
            b"IDXROOT2\0\0\0\0\0\0\0\0\0\0\0\0\0\0\0\x3a\0\0\0\x40\0\0\0\0\x21"
        )
    );
    assert!(rt; contains_at(bytes, 152, b"FILEINF2"));
    assert!(rt; check(rt.alloc(), bytes) == Ok(Items::from_vec(cells)));
    Ok(())
}

#[test]
fn writes_no_cells(rt: HostRuntime) -> Result<(), Fail> {
    let file = file(rt.alloc(), &[])?;
    assert!(rt; told(file.as_slice()) == (66, 0, 0, 0, 1, 0));
    let read = check(rt.alloc(), file.as_slice())?;
    assert!(rt; read.is_empty());
    Ok(())
}

#[test]
fn refuses_what_does_not_ascend(rt: HostRuntime) -> Result<(), Fail> {
    let mut writer = HFileWriter::new(rt.alloc())?;
    let first = cell(rt.alloc(), b"r", 1)?;
    let second = cell(rt.alloc(), b"s", 1)?;
    assert!(rt; added(&mut writer, &second) == Ok(()));
    assert!(rt; added(&mut writer, &second) == Err(AddError::NotAscending));
    assert!(rt; added(&mut writer, &first) == Err(AddError::NotAscending));
    let file = writer.finish()?;
    let read = check(rt.alloc(), file.as_slice())?;
    assert!(rt; read.len() == 1);
    Ok(())
}

#[test]
fn writes_two_blocks(rt: HostRuntime) -> Result<(), Fail> {
    let cells = cells(rt.alloc(), 3, 40_000)?;
    let file = file(rt.alloc(), cells.as_slice())?;
    // Each cell has 40,025 bytes: the first block has two, and the second begins behind them and a header.
    let (_, _, blocks, entries, levels, last) = told(file.as_slice());
    assert!(rt; (blocks, entries, levels, last) == (2, 3, 1, 33 + 2 * 40_025));
    assert!(rt; check(rt.alloc(), file.as_slice()) == Ok(Items::from_vec(cells)));
    Ok(())
}

#[test]
fn writes_two_levels(rt: HostRuntime) -> Result<(), Fail> {
    let cells = cells(rt.alloc(), 129, 65_536)?;
    let file = file(rt.alloc(), cells.as_slice())?;
    let (_, _, names, entries, levels, last) = told(file.as_slice());
    assert!(rt; (names, entries, levels, last) == (2, 129, 2, 128 * (33 + 65_561)));
    assert!(rt; check(rt.alloc(), file.as_slice()) == Ok(Items::from_vec(cells)));
    Ok(())
}
