ghost use Rattle.std.specs.Prelude.{◌≡◌, IfOk};
ghost use Rattle.cell_sight.specs.Same.{sorted};
ghost use Rattle.cell_merge.specs.Input.{IsInOrder};

use super::*;
use hb_cell::{Cell, Kind, hidden_by};
use hb_names::{FamilyName, TableName};
use hb_records::TableSchema;
use hb_wire::{Blob, Copied, Items, NoMemory};
use std::alloc::Global;
use std::test::Fail;

/// Row, qualifier, timestamp, kind, sequence number and value of a cell of family `f`.
type Short = (u8, u8, u64, Kind, u64, u8);

fn cell(alloc: Global, short: Short) -> Result<Cell, NoMemory> {
    let (row, qualifier, ts, kind, seq, value) = short;
    Ok(Cell {
        row: Blob::copy_of(alloc, &[row])?,
        family: Blob::copy_of(alloc, b"f")?,
        qualifier: Blob::copy_of(alloc, &[qualifier])?,
        ts,
        kind,
        seq,
        value: Blob::copy_of(alloc, &[value])?,
    })
}

fn cells(alloc: Global, shorts: &[Short]) -> Result<Vec<Cell>, NoMemory> {
    let mut cells = Vec::new(alloc);
    for short in shorts {
        cells.push(cell(alloc, *short)?)?;
    }
    Ok(cells)
}

fn input(cells: Vec<Cell>, half: Option<(Blob, bool)>, seq: Option<u64>) -> Result<Input, NoMemory>
    ensures { IfOk result (λ input. sorted input.cells ≡ input.cells) }
{
    let cells = Items::from_vec(put_in_order(cells)?);
    Ok(Input { cells, half, seq })
}

fn both(alloc: Global, first: Input, second: Input) -> Result<Items<Input>, NoMemory>
    requires { (sorted first.cells ≡ first.cells) × (sorted second.cells ≡ second.cells) }
    ensures { IfOk result (λ inputs. IsInOrder inputs) }
{
    let mut inputs = Vec::new(alloc);
    inputs.push(first)?;
    inputs.push(second)?;
    Ok(Items::from_vec(inputs))
}

fn schema(alloc: Global, versions: u32) -> Result<TableSchema, Fail> {
    let mut families = Vec::new(alloc);
    families.push((FamilyName::read(alloc, b"f")?, versions))?;
    Ok(TableSchema {
        table: TableName::read(alloc, b"t")?,
        families: Items::from_vec(families),
    })
}

/// The compaction of two inputs.
fn compacted(
    alloc: Global,
    first: &[Short],
    second: &[Short],
    versions: Option<u32>,
) -> Result<Items<Cell>, Fail> {
    let first = input(cells(alloc, first)?, None, None)?;
    let second = input(cells(alloc, second)?, None, None)?;
    let inputs = both(alloc, first, second)?;
    let schema = schema(alloc, versions.unwrap_or(1))?;
    Ok(compact_cells(inputs, &schema, versions.is_some())?)
}

const P: Kind = Kind::Put;

#[test]
fn merges_in_key_order(rt: HostRuntime) -> Result<(), Fail> {
    let alloc = rt.alloc();
    let a = (b'a', b'q', 1, P, 1, b'v');
    let b = (b'b', b'q', 1, P, 1, b'v');
    let c = (b'c', b'q', 1, P, 1, b'v');
    let merged = compacted(alloc, &[a, c], &[b], None)?;
    assert_eq!(rt; merged.as_slice(), cells(alloc, &[a, b, c])?.as_slice());
    let doubled = compacted(alloc, &[a, c], &[a], None)?;
    assert_eq!(rt; doubled.as_slice(), cells(alloc, &[a, a, c])?.as_slice());
    Ok(())
}

#[test]
fn cuts_and_renumbers(rt: HostRuntime) -> Result<(), Fail> {
    let alloc = rt.alloc();
    let all = [
        (b'a', b'q', 1, P, 9, b'v'),
        (b'a', b'q', 1, P, 3, b'u'),
        (b'm', b'q', 1, P, 1, b'v'),
    ];
    for (top, seq, expected) in [
        (true, None, [(b'm', b'q', 1, P, 1, b'v')].as_slice()),
        (
            false,
            None,
            [(b'a', b'q', 1, P, 9, b'v'), (b'a', b'q', 1, P, 3, b'u')].as_slice(),
        ),
        (
            false,
            Some(5),
            [(b'a', b'q', 1, P, 5, b'u'), (b'a', b'q', 1, P, 5, b'v')].as_slice(),
        ),
    ] {
        let half = Some((Blob::copy_of(alloc, b"m")?, top));
        let first = input(cells(alloc, &all)?, half, seq)?;
        let second = input(Vec::new(alloc), None, None)?;
        let merged = compact_cells(both(alloc, first, second)?, &schema(alloc, 1)?, false)?;
        assert_eq!(rt; merged.as_slice(), cells(alloc, expected)?.as_slice());
    }
    Ok(())
}

/// Versions, the kind, timestamp, number and value of two cells of a column, and which of them shows.
const SHOWN: [(
    u32,
    (Kind, u64, u64, u8),
    (Kind, u64, u64, u8),
    Option<bool>,
); 14] = [
    (
        1,
        (Kind::Put, 1, 1, b'v'),
        (Kind::Put, 2, 1, b'v'),
        Some(false),
    ),
    (
        1,
        (Kind::Put, 5, 1, b'v'),
        (Kind::Put, 5, 2, b'v'),
        Some(false),
    ),
    (
        3,
        (Kind::Put, 5, 1, b'w'),
        (Kind::Put, 5, 1, b'v'),
        Some(false),
    ),
    (
        3,
        (Kind::Put, 5, 1, b'v'),
        (Kind::Put, 5, 1, b'v'),
        Some(true),
    ),
    (0, (Kind::Put, 5, 1, b'v'), (Kind::Put, 4, 1, b'v'), None),
    (3, (Kind::Delete, 5, 1, b'v'), (Kind::Put, 5, 9, b'v'), None),
    (
        3,
        (Kind::Delete, 6, 1, b'v'),
        (Kind::Put, 5, 9, b'v'),
        Some(false),
    ),
    (
        3,
        (Kind::Delete, 4, 1, b'v'),
        (Kind::Put, 5, 9, b'v'),
        Some(false),
    ),
    (
        3,
        (Kind::DeleteColumn, 5, 1, b'v'),
        (Kind::Put, 5, 9, b'v'),
        None,
    ),
    (
        3,
        (Kind::DeleteColumn, 6, 1, b'v'),
        (Kind::Put, 5, 9, b'v'),
        None,
    ),
    (
        3,
        (Kind::DeleteColumn, 4, 1, b'v'),
        (Kind::Put, 5, 9, b'v'),
        Some(false),
    ),
    (
        3,
        (Kind::DeleteFamily, 5, 1, b'v'),
        (Kind::Put, 5, 9, b'v'),
        None,
    ),
    (
        3,
        (Kind::DeleteFamily, 6, 1, b'v'),
        (Kind::Put, 5, 9, b'v'),
        None,
    ),
    (
        3,
        (Kind::DeleteFamily, 4, 1, b'v'),
        (Kind::Put, 5, 9, b'v'),
        Some(false),
    ),
];

#[test]
fn shows_what_nothing_hides(rt: HostRuntime) -> Result<(), Fail> {
    let alloc = rt.alloc();
    for (
        versions,
        (kind, ts, seq, value),
        (other_kind, other_ts, other_seq, other_value),
        which,
    ) in SHOWN {
        let one = (b'r', b'q', ts, kind, seq, value);
        let other = (b'r', b'q', other_ts, other_kind, other_seq, other_value);
        let shown = compacted(alloc, &[one], &[other], Some(versions))?;
        let expected = match which {
            None => cells(alloc, &[])?,
            Some(true) => cells(alloc, &[one])?,
            Some(false) => cells(alloc, &[other])?,
        };
        assert_eq!(rt; shown.as_slice(), expected.as_slice());
    }
    Ok(())
}

/// The pairs of one plain list: whether a put is hidden by no cell of it.
fn is_unhidden(all: &[Cell], cell: &Cell) -> bool {
    cell.kind == P && !all.iter().any(|marker| hidden_by(cell, marker))
}

fn is_same_version(a: &Cell, b: &Cell) -> bool {
    a.row == b.row && a.qualifier == b.qualifier && a.ts == b.ts
}

/// Whether no other put of its version that shows has a greater number, or a lesser value.
fn is_winner(all: &[Cell], cell: &Cell) -> bool {
    is_unhidden(all, cell)
        && !all.iter().any(|other| {
            is_same_version(cell, other)
                && is_unhidden(all, other)
                && (other.seq > cell.seq || other.seq == cell.seq && other.value < cell.value)
        })
}

/// The timestamps of a put's column that show above its own.
fn newer(all: &[Cell], cell: &Cell) -> usize {
    (0..4)
        .filter(|ts| {
            *ts > cell.ts
                && all.iter().any(|other| {
                    other.row == cell.row
                        && other.qualifier == cell.qualifier
                        && other.ts == *ts
                        && is_winner(all, other)
                })
        })
        .count()
}

/// What the definition says of a list without doubles, in key order.
fn defined(alloc: Global, all: &[Cell], versions: u32) -> Result<Vec<Cell>, NoMemory> {
    let mut shown: Vec<Cell> = Vec::new(alloc);
    for cell in all {
        let again = shown.iter().any(|other| other == cell);
        if is_winner(all, cell) && newer(all, cell) < versions as usize && !again {
            shown.push(cell.copy()?)?;
        }
    }
    put_in_order(shown)
}

/// A cell that a number tells, with few rows, columns, timestamps, numbers and values.
fn nth(n: u64) -> Short {
    let kind = match n / 16 % 8 {
        0 => Kind::Delete,
        1 => Kind::DeleteColumn,
        2 => Kind::DeleteFamily,
        _ => P,
    };
    let row = if n % 2 == 0 { b'r' } else { b's' };
    let qualifier = if n / 2 % 2 == 0 { b'p' } else { b'q' };
    let value = if n / 128 % 2 == 0 { b'v' } else { b'w' };
    (row, qualifier, n / 4 % 4, kind, n / 256 % 3, value)
}

#[test]
fn shows_what_the_definition_says(rt: HostRuntime) -> Result<(), Fail> {
    let alloc = rt.alloc();
    let mut n: u64 = 1;
    let mut many: usize = 0;
    for list in 0..240u32 {
        let mut shorts = Vec::new(alloc);
        for _ in 0..list % 16 {
            n = n
                .wrapping_mul(6_364_136_223_846_793_005)
                .wrapping_add(1_442_695_040_888_963_407);
            shorts.push(nth(n >> 33))?;
        }
        let all = cells(alloc, shorts.as_slice())?;
        let versions = list % 3 + 1;
        let expected = defined(alloc, all.as_slice(), versions)?;
        let shown = compacted(alloc, shorts.as_slice(), &[], Some(versions))?;
        assert_eq!(rt; shown.as_slice(), expected.as_slice(), "list {list}");
        many = many.saturating_add(expected.len());
    }
    assert!(rt; many > 400);
    Ok(())
}
