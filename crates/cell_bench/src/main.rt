//! Encodes a million cells into one block of cells and reads them back, to be timed from outside.
#![tactic(auto)]

use hb_cell::{Cell, Kind, encode_cell};
use hb_wire::{Blob, NoMemory};
use hfile_block::cells_of_block;
use std::alloc::Global;
use std::io;

/// A cell of 73 bytes.
fn cell(alloc: Global) -> Result<Cell, NoMemory> {
    Ok(Cell {
        row: Blob::copy_of(alloc, b"row 0001")?,
        family: Blob::copy_of(alloc, b"f")?,
        qualifier: Blob::copy_of(alloc, b"qualifier")?,
        ts: 0,
        kind: Kind::Put,
        seq: 1000,
        value: Blob::copy_of(alloc, b"a value of thirty-two bytes here")?,
    })
}

/// The bytes of so many cells, which differ in their timestamps.
fn block(alloc: Global, count: u64) -> Result<Blob, NoMemory> {
    let mut out = Blob::copy_of(alloc, b"")?;
    let mut cell = cell(alloc)?;
    for number in 0..count {
        cell.ts = number;
        if cell.is_within_limits() {
            encode_cell(&mut out, &cell, true)?;
        }
    }
    Ok(out)
}

fn main(rt: HostRuntime) -> io::Result<()> {
    let Ok(content) = block(rt.alloc(), 1_000_000) else {
        return Ok(());
    };
    println!(rt; "{} bytes", content.len())?;
    if let Ok(cells) = cells_of_block(rt.alloc(), content.as_slice(), 0, true) {
        println!(rt; "{} cells", cells.len())?;
    }
    Ok(())
}
