//! The texts of replies and causes.
use crate::{PrintCause, print_cause, print_reply};
use hb_cell::{Cell, Kind};
use hb_names::{Encoded, FamilyName, Place, SnapName};
use hb_wire::{Blob, Items, NoMemory};
use plain_model::{Actor, Reply};
use std::alloc::Global;
use std::test::Fail;

#[test]
fn causes(rt: HostRuntime) -> Result<(), Fail> {
    let table: [(PrintCause, &[u8]); 6] = [
        (PrintCause::NoMemory, b"refused NoMemory\n"),
        (PrintCause::Closed(17), b"refused Closed 17\n"),
        (PrintCause::JournalFull, b"refused JournalFull\n"),
        (PrintCause::Spent, b"refused Spent\n"),
        (PrintCause::NsFault, b"refused NsFault\n"),
        (PrintCause::Damaged, b"refused Damaged\n"),
    ];
    for (cause, text) in table {
        let mut out = Blob::copy_of(rt.alloc(), b"")?;
        print_cause(&mut out, &cause)?;
        assert_eq!(rt; out.as_slice(), text);
    }
    Ok(())
}

/// A reply without fields, or with numbers alone.
fn plain(number: usize) -> Reply {
    match number {
        0 => Reply::Fine,
        1 => Reply::TableExists,
        2 => Reply::TableNotFound,
        3 => Reply::TableNotEnabled,
        4 => Reply::TableNotDisabled,
        5 => Reply::NameTaken,
        6 => Reply::BadSplitKey,
        7 => Reply::HasReferences,
        8 => Reply::TooManyRegions,
        9 => Reply::SnapshotExists,
        10 => Reply::SnapshotNotFound,
        11 => Reply::Removed(0),
        12 => Reply::Removed(1),
        13 => Reply::Removed(4_294_967_295),
        14 => Reply::InUse(Actor(17)),
        _ => Reply::EmptyGroup,
    }
}

/// A reply with names.
fn named(alloc: Global, number: usize) -> Result<Reply, Fail> {
    let family = FamilyName::read(alloc, b"f-1")?;
    let file = Blob::copy_of(alloc, b"f/x y")?;
    match number {
        0 => Ok(Reply::DuplicateFamily(family)),
        1 => Ok(Reply::UnknownFamily(family)),
        2 => Ok(Reply::TooManyFiles(
            Encoded::read(alloc, b"0123456789abcdef0123456789abcdef")?,
            family,
        )),
        3 => Ok(Reply::Taking(SnapName::read(alloc, b"s.1")?)),
        4 => Ok(Reply::BadFile(file)),
        _ => Ok(Reply::DuplicateKey(file)),
    }
}

/// The names of so many snapshots.
fn snapshots(alloc: Global, many: usize) -> Result<Reply, Fail> {
    let mut names = Vec::new(alloc);
    for _ in 0..many {
        names.push(SnapName::read(alloc, b"s")?)?;
    }
    Ok(Reply::Snapshots(Items::from_vec(names)))
}

/// So many places.
fn deleted(alloc: Global, many: usize) -> Result<Reply, Fail> {
    let mut places = Vec::new(alloc);
    for _ in 0..many {
        places.push(Place::read(alloc, b"archive/data/x")?)?;
    }
    Ok(Reply::Deleted(Items::from_vec(places)))
}

/// A row, a qualifier, a timestamp and a value.
type CellParts = (&'static [u8], &'static [u8], u64, &'static [u8]);

fn parts(number: usize) -> CellParts {
    match number {
        0 => (b"r", b"q", 5, b"v"),
        1 => (b"a", b"", 0, b""),
        2 => (b"!~}]", b"[^:'\"", 9_223_372_036_854_775_807, b"0aA"),
        3 => (b" \\\x7f", b"\n\r\t", 10, b"\x00\xff"),
        _ => (b"\x1f\x80", b"\xc3\xa4", 1, b"\xfe\xed"),
    }
}

fn cell(alloc: Global, parts: CellParts) -> Result<Cell, NoMemory> {
    Ok(Cell {
        row: Blob::copy_of(alloc, parts.0)?,
        family: Blob::copy_of(alloc, b"f")?,
        qualifier: Blob::copy_of(alloc, parts.1)?,
        ts: parts.2,
        kind: Kind::Put,
        seq: 7,
        value: Blob::copy_of(alloc, parts.3)?,
    })
}

/// A cell so many times.
fn cells(alloc: Global, number: usize, many: usize) -> Result<Reply, Fail> {
    let mut cells = Vec::new(alloc);
    for _ in 0..many {
        cells.push(cell(alloc, parts(number))?)?;
    }
    Ok(Reply::Cells(Items::from_vec(cells)))
}

/// The reply whose text has this number.
fn reply(alloc: Global, number: usize) -> Result<Reply, Fail> {
    match number {
        0..=15 => Ok(plain(number)),
        16..=21 => named(alloc, number - 16),
        22..=24 => snapshots(alloc, number - 22),
        25..=27 => deleted(alloc, number - 25),
        28..=32 => cells(alloc, number - 28, 1),
        33 => cells(alloc, 0, 0),
        _ => cells(alloc, 0, 2),
    }
}

const TEXTS: [&'static [u8]; 35] = [
    b">ok\n",
    b">refused TableExists\n",
    b">refused TableNotFound\n",
    b">refused TableNotEnabled\n",
    b">refused TableNotDisabled\n",
    b">refused NameTaken\n",
    b">refused BadSplitKey\n",
    b">refused HasReferences\n",
    b">refused TooManyRegions\n",
    b">refused SnapshotExists\n",
    b">refused SnapshotNotFound\n",
    b">0 regions removed\n",
    b">1 regions removed\n",
    b">4294967295 regions removed\n",
    b">refused InUse 17\n",
    b">refused EmptyGroup\n",
    b">refused DuplicateFamily f-1\n",
    b">refused UnknownFamily f-1\n",
    b">refused TooManyFiles 0123456789abcdef0123456789abcdef f-1\n",
    b">refused Taking s.1\n",
    b">refused BadFile f/x\\x20y\n",
    b">refused DuplicateKey f/x\\x20y\n",
    b">0 snapshots\n",
    b">s\n1 snapshots\n",
    b">s\ns\n2 snapshots\n",
    b">0 deleted\n",
    b">deleted archive/data/x\n1 deleted\n",
    b">deleted archive/data/x\ndeleted archive/data/x\n2 deleted\n",
    b">r f:q ts=5 value=v\n1 cells\n",
    b">a f: ts=0 value=\n1 cells\n",
    b">!~}] f:[^:'\" ts=9223372036854775807 value=0aA\n1 cells\n",
    b">\\x20\\x5c\\x7f f:\\x0a\\x0d\\x09 ts=10 value=\\x00\\xff\n1 cells\n",
    b">\\x1f\\x80 f:\\xc3\\xa4 ts=1 value=\\xfe\\xed\n1 cells\n",
    b">0 cells\n",
    b">r f:q ts=5 value=v\nr f:q ts=5 value=v\n2 cells\n",
];

#[test]
fn replies(rt: HostRuntime) -> Result<(), Fail> {
    let mut number: usize = 0;
    for text in TEXTS {
        let reply = reply(rt.alloc(), number)?;
        let mut out = Blob::copy_of(rt.alloc(), b">")?;
        print_reply(&mut out, &reply)?;
        assert_eq!(rt; out.as_slice(), text, "of {number}");
        number = number.saturating_add(1);
    }
    Ok(())
}
