//! Merges the cells of ten inputs into key order, and then to the visible ones, with the times on standard error. An
//! argument says how many cells an input has: 100,000 where there is none.
#![tactic(auto)]

ghost use Rattle.std.specs.Prelude.{◌≡◌, IfOk};
ghost use Rattle.cell_sight.specs.Same.{sorted};
ghost use Rattle.cell_merge.specs.Input.{IsInOrder};

use cell_merge::{Input, Merge, Visible, put_in_order};
use hb_cell::{Cell, Kind};
use hb_names::{FamilyName, TableName};
use hb_records::TableSchema;
use hb_wire::{Blob, Items, NoMemory};
use std::alloc::Global;
use std::env::Env;
use std::time::Instant;
use std::{env, io};

/// How many inputs there are.
const INPUTS: u64 = 10;
/// How many cells each has where no argument says so.
const CELLS: u64 = 100_000;

/// Ten versions of each column stand in ten inputs; one cell in ten is a marker.
fn cell(alloc: Global, input: u64, number: u64) -> Result<Cell, NoMemory> {
    let row = number / 10;
    let digits = [
        b'0' + (row / 10_000 % 10) as u8,
        b'0' + (row / 1_000 % 10) as u8,
        b'0' + (row / 100 % 10) as u8,
        b'0' + (row / 10 % 10) as u8,
        b'0' + (row % 10) as u8,
    ];
    Ok(Cell {
        row: Blob::copy_of(alloc, &digits)?,
        family: Blob::copy_of(alloc, b"f")?,
        qualifier: Blob::copy_of(alloc, &[b'0' + (number % 10) as u8])?,
        ts: input,
        kind: if number.wrapping_add(input) % 10 == 0 {
            Kind::DeleteColumn
        } else {
            Kind::Put
        },
        seq: input,
        value: Blob::copy_of(alloc, b"a value of thirty-two bytes here")?,
    })
}

/// The input of a number, in key order.
fn input(alloc: Global, which: u64, count: u64) -> Result<Input, NoMemory>
    ensures { IfOk result (λ input. sorted input.cells ≡ input.cells) }
{
    let mut cells = Vec::with_capacity(alloc, count as usize)?;
    for number in 0..count {
        cells.push(cell(alloc, which, number)?)?;
    }
    let cells = Items::from_vec(put_in_order(cells)?);
    Ok(Input {
        cells,
        half: None,
        seq: None,
    })
}

/// So many inputs.
fn inputs(alloc: Global, many: u64, count: u64) -> Result<Items<Input>, NoMemory>
    ensures { IfOk result (λ inputs. IsInOrder inputs) }
{
    let mut inputs = Vec::new(alloc);
    for which in 0..many {
        inputs.push(input(alloc, which, count)?)?;
    }
    Ok(Items::from_vec(inputs))
}

/// How many cells a merge has.
fn count_merged(mut merge: Merge) -> Result<u64, NoMemory> {
    let mut count: u64 = 0;
    while let Some(_) = merge.next()? {
        count = count.wrapping_add(1);
    }
    Ok(count)
}

/// How many of them are visible.
fn count_visible(mut shown: Visible) -> Result<u64, NoMemory> {
    let mut count: u64 = 0;
    while let Some(_) = shown.next()? {
        count = count.wrapping_add(1);
    }
    Ok(count)
}

/// The schema of the one family, with three versions.
fn schema(alloc: Global) -> Option<TableSchema> {
    let mut families = Vec::new(alloc);
    let pushed = families.push((FamilyName::read(alloc, b"f").ok()?, 3));
    pushed.ok()?;
    Some(TableSchema {
        table: TableName::read(alloc, b"t").ok()?,
        families: Items::from_vec(families),
    })
}

/// How many cells the inputs have.
fn merged(inputs: Items<Input>) -> Result<u64, NoMemory>
    requires { IsInOrder inputs }
{
    count_merged(Merge::new(inputs)?)
}

/// How many of them show.
fn visible(inputs: Items<Input>, schema: &TableSchema) -> Result<u64, NoMemory>
    requires { IsInOrder inputs }
{
    count_visible(Visible::new(Merge::new(inputs)?, schema)?)
}

/// How many cells an input has: what the last word says, if it is a number.
fn cells_of_an_input<R: Env + AllocGlobal>(rt: &R) -> io::Result<u64> {
    let mut count = CELLS;
    for word in env::args(rt)? {
        if let Ok(said) = word.parse::<u64>() {
            count = said;
        }
    }
    Ok(count)
}

fn main(rt: HostRuntime) -> io::Result<()> {
    let (alloc, count) = (rt.alloc(), cells_of_an_input(&rt)?);
    let Some(schema) = schema(alloc) else {
        return Ok(());
    };
    let Ok(made) = inputs(alloc, INPUTS, count) else {
        return Ok(());
    };
    let start = Instant::now(&rt)?;
    let found = merged(made);
    eprintln!(rt; "merge {} ms", start.elapsed(&rt)?.as_millis())?;
    if let Ok(cells) = found {
        println!(rt; "{cells} merged")?;
    }
    let Ok(made) = inputs(alloc, INPUTS, count) else {
        return Ok(());
    };
    let start = Instant::now(&rt)?;
    let found = visible(made, &schema);
    eprintln!(rt; "visible {} ms", start.elapsed(&rt)?.as_millis())?;
    if let Ok(cells) = found {
        println!(rt; "{cells} visible")?;
    }
    Ok(())
}
