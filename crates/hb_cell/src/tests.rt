use super::*;
use hb_wire::{Blob, Copied, NoMemory};
use std::alloc::Global;
use std::cmp::Ordering;
use std::test::Fail;

/// Row `r`, family `f`, qualifier `q`, timestamp 5, a value `v`, sequence number 1.
const EXAMPLE: [u8; 25] = [
    0, 0, 0, 0x0f, 0, 0, 0, 1, 0, 1, b'r', 1, b'f', b'q', 0, 0, 0, 0, 0, 0, 0, 5, 4, b'v', 1,
];

fn cell(alloc: Global, ts: u64, kind: Kind, seq: u64, value: &[u8]) -> Result<Cell, NoMemory> {
    Ok(Cell {
        row: Blob::copy_of(alloc, b"r")?,
        family: Blob::copy_of(alloc, b"f")?,
        qualifier: Blob::copy_of(alloc, b"q")?,
        ts,
        kind,
        seq,
        value: Blob::copy_of(alloc, value)?,
    })
}

#[test]
fn example_both_ways(rt: HostRuntime) -> Result<(), Fail> {
    let example = cell(rt.alloc(), 5, Kind::Put, 1, b"v")?;
    let limits = example.is_within_limits();
    assert!(rt; limits);
    let mut out = Blob::copy_of(rt.alloc(), b"x")?;
    encode_cell(&mut out, &example, true)?;
    assert_eq!(rt; &out.as_slice()[1..], EXAMPLE.as_slice());
    assert_eq!(rt;
        decode_cell(rt.alloc(), out.as_slice(), 1, true),
        Ok((example.copy()?, 25))
    );
    let unnumbered = Cell { seq: 0, ..example };
    assert_eq!(rt;
        decode_cell(rt.alloc(), &EXAMPLE, 0, false),
        Ok((unnumbered, 24))
    );
    Ok(())
}

/// A byte of the example that is exchanged, and the fault that is then found.
const FAULTS: [(usize, u8, CellError); 8] = [
    (3, 0x10, CellError::Short(1)),
    (24, 0x8f, CellError::Short(1)),
    (9, 0, CellError::RowLength),
    (3, 1, CellError::FamilyLength),
    (11, 0, CellError::FamilyLength),
    (22, 5, CellError::Kind(5)),
    (14, 0x80, CellError::Timestamp),
    (24, 0xff, CellError::Sequence),
];

#[test]
fn finds_the_first_fault(rt: HostRuntime) -> Result<(), Fail> {
    for (place, byte, fault) in FAULTS {
        let mut bytes = EXAMPLE;
        assert!(rt; place < 25);
        bytes[place] = byte;
        assert_eq!(rt; decode_cell(rt.alloc(), &bytes, 0, true), Err(fault));
    }
    Ok(())
}

/// Two bytes of the example that are exchanged, and the one of the two faults that is found.
const DOUBLE_FAULTS: [((usize, u8), (usize, u8), CellError); 8] = [
    ((9, 0), (3, 0x10), CellError::Short(1)),
    ((9, 0), (24, 0x8f), CellError::Short(1)),
    ((11, 0), (9, 0), CellError::RowLength),
    ((24, 0xff), (9, 0), CellError::RowLength),
    ((22, 5), (11, 0), CellError::FamilyLength),
    ((14, 0x80), (22, 5), CellError::Kind(5)),
    ((24, 0xff), (22, 5), CellError::Kind(5)),
    ((24, 0xff), (14, 0x80), CellError::Timestamp),
];

#[test]
fn finds_the_first_of_two_faults(rt: HostRuntime) -> Result<(), Fail> {
    for ((place, byte), (other, other_byte), fault) in DOUBLE_FAULTS {
        let mut bytes = EXAMPLE;
        assert!(rt; place < 25 && other < 25);
        bytes[place] = byte;
        bytes[other] = other_byte;
        assert_eq!(rt; decode_cell(rt.alloc(), &bytes, 0, true), Err(fault));
    }
    Ok(())
}

fn filled(alloc: Global, len: u32) -> Result<Blob, NoMemory> {
    let mut filled = Blob::copy_of(alloc, b"")?;
    for _ in 0..len {
        filled.add(b"x")?;
    }
    Ok(filled)
}

/// The lengths of a row, a family, a qualifier and a value, and the number that is the timestamp and the sequence
/// number.
const SIZES: [([u32; 4], u64); 4] = [
    ([1, 1, 0, 0], 0),
    ([1, 1, 1, 1], 127),
    ([300, 20, 1_000, 65_536], 128),
    ([32_767, 127, 32_767, 100_000], 9_223_372_036_854_775_807),
];

#[test]
fn reads_what_is_written(rt: HostRuntime) -> Result<(), Fail> {
    let alloc = rt.alloc();
    for ([row, family, qualifier, value], number) in SIZES {
        for kind in [
            Kind::Put,
            Kind::Delete,
            Kind::DeleteColumn,
            Kind::DeleteFamily,
        ] {
            let cell = Cell {
                row: filled(alloc, row)?,
                family: filled(alloc, family)?,
                qualifier: filled(alloc, qualifier)?,
                ts: number,
                kind,
                seq: number,
                value: filled(alloc, value)?,
            };
            let limits = cell.is_within_limits();
            assert!(rt; limits);
            let mut out = Blob::copy_of(alloc, b"")?;
            encode_cell(&mut out, &cell, true)?;
            let len = out.len();
            assert_eq!(rt;
                decode_cell(alloc, out.as_slice(), 0, true),
                Ok((cell.copy()?, len))
            );
        }
    }
    Ok(())
}

#[test]
fn finds_what_is_missing(rt: HostRuntime) -> Result<(), Fail> {
    for (len, missing) in [(0, 8), (7, 1), (8, 16), (23, 1), (24, 1)] {
        assert!(rt; len < 25);
        assert_eq!(rt;
            decode_cell(rt.alloc(), &EXAMPLE[..len], 0, true),
            Err(CellError::Short(missing))
        );
    }
    Ok(())
}

#[test]
fn orders_newest_first(rt: HostRuntime) -> Result<(), Fail> {
    let first = cell(rt.alloc(), 5, Kind::Delete, 2, b"v")?;
    for (ts, kind, seq, value) in [
        (4, Kind::Delete, 2, b"v"),
        (5, Kind::Put, 2, b"v"),
        (5, Kind::Delete, 1, b"v"),
        (5, Kind::Delete, 2, b"w"),
    ] {
        let second = cell(rt.alloc(), ts, kind, seq, value)?;
        assert_eq!(rt; cmp_key(&first, &second), Ordering::Less);
        assert!(rt; second > first);
    }
    assert_eq!(rt; Kind::Put.copy()?, Kind::Put);
    Ok(())
}
