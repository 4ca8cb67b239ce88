//! Messages cut at each byte, and with each of their tags turned: into one of an unknown field, of another kind, or of
//! no kind at all.

use crate::{read_reference, read_region_info, read_snapshot_info};
use field_reader::RecordError;
use std::alloc::{AllocError, Global};
use std::test::Fail;

/// Turns a tag's number into that of an unknown field.
const UNKNOWN: u8 = 0x40;

/// Turns bytes into a number, and a number into bytes.
const OTHER: u8 = 0x02;

/// Turns bytes into a kind that there is not, and a number into eight bytes.
const WRONG: u8 = 0x01;

/// The bytes, of which one is turned.
fn turned(alloc: Global, bytes: &[u8], at: usize, turn: u8) -> Result<Vec<u8>, AllocError> {
    let mut copy = Vec::new(alloc);
    for (i, byte) in bytes.iter().enumerate() {
        copy.push(if i == at { *byte ^ turn } else { *byte })?;
    }
    Ok(copy)
}

/// A reference as its row's length and its half.
type Reference = Result<(usize, bool), RecordError>;

fn reference(alloc: Global, bytes: &[u8]) -> Reference {
    let reference = read_reference(alloc, bytes)?;
    Ok((reference.row.len(), reference.top))
}

/// The bottom half at row `m`: after the prefix a row at 4 and a half at 7.
const REFERENCE: &[u8; 9] = b"PBUF\x0a\x01m\x10\x01";

/// What a front of the reference of so many bytes is answered.
fn reference_cut(len: usize) -> Reference {
    match len {
        4 => Err(RecordError::MissingField(1)),
        7 => Err(RecordError::MissingField(2)),
        9 => Ok((1, false)),
        5 | 6 => Err(RecordError::BadRecord(4)),
        8 => Err(RecordError::BadRecord(7)),
        _ => Err(RecordError::BadRecord(0)),
    }
}

const REFERENCES: [(usize, u8, Reference); 10] = [
    (0, UNKNOWN, Err(RecordError::BadRecord(0))),
    (1, WRONG, Err(RecordError::BadRecord(0))),
    (2, WRONG, Err(RecordError::BadRecord(0))),
    (3, OTHER, Err(RecordError::BadRecord(0))),
    (4, UNKNOWN, Err(RecordError::MissingField(1))),
    (4, OTHER, Err(RecordError::BadRecord(4))),
    (4, WRONG, Err(RecordError::BadRecord(4))),
    (7, UNKNOWN, Err(RecordError::MissingField(2))),
    (7, OTHER, Err(RecordError::BadRecord(7))),
    (7, WRONG, Err(RecordError::BadRecord(7))),
];

#[test]
fn references_are_cut_and_turned(rt: HostRuntime) -> Result<(), Fail> {
    for len in 0..10 {
        assert_eq!(rt;
            reference(rt.alloc(), &REFERENCE[..len]),
            reference_cut(len)
        );
    }
    for (at, turn, answer) in REFERENCES {
        let bytes = turned(rt.alloc(), REFERENCE, at, turn)?;
        assert_eq!(rt; reference(rt.alloc(), bytes.as_slice()), answer);
    }
    Ok(())
}

/// A description as the lengths of its name and table, its time and how it was made.
type Info = Result<(usize, usize, u64, bool), RecordError>;

fn info(alloc: Global, bytes: &[u8]) -> Info {
    let info = read_snapshot_info(alloc, bytes)?;
    let name = info.name.as_slice().len();
    let table = info.table.as_slice().len();
    Ok((name, table, info.created, info.flush))
}

/// A name at 0, a table at 4, the time 300 at 7, the way at 10 and a version at 12.
const INFO: &[u8; 14] = b"\x0a\x02s1\x12\x01t\x18\xac\x02\x20\x00\x28\x02";

/// What a front of the description of so many bytes is answered.
fn info_cut(len: usize) -> Info {
    match len {
        0 => Err(RecordError::MissingField(1)),
        4 => Err(RecordError::MissingField(2)),
        7 => Ok((2, 1, 0, true)),
        10 => Ok((2, 1, 300, true)),
        12 | 14 => Ok((2, 1, 300, false)),
        5 | 6 => Err(RecordError::BadRecord(4)),
        8 | 9 => Err(RecordError::BadRecord(7)),
        11 => Err(RecordError::BadRecord(10)),
        13 => Err(RecordError::BadRecord(12)),
        _ => Err(RecordError::BadRecord(0)),
    }
}

const INFOS: [(usize, u8, Info); 15] = [
    (0, UNKNOWN, Err(RecordError::MissingField(1))),
    (0, OTHER, Err(RecordError::BadRecord(0))),
    (0, WRONG, Err(RecordError::BadRecord(0))),
    (4, UNKNOWN, Err(RecordError::MissingField(2))),
    (4, OTHER, Err(RecordError::BadRecord(4))),
    (4, WRONG, Err(RecordError::BadRecord(4))),
    (7, UNKNOWN, Ok((2, 1, 0, false))),
    (7, OTHER, Err(RecordError::BadRecord(7))),
    (7, WRONG, Err(RecordError::BadRecord(7))),
    (10, UNKNOWN, Ok((2, 1, 300, true))),
    (10, OTHER, Err(RecordError::BadRecord(10))),
    (10, WRONG, Err(RecordError::BadRecord(10))),
    (12, UNKNOWN, Ok((2, 1, 300, false))),
    (12, OTHER, Err(RecordError::BadRecord(12))),
    (12, WRONG, Err(RecordError::BadRecord(12))),
];

#[test]
fn descriptions_are_cut_and_turned(rt: HostRuntime) -> Result<(), Fail> {
    for len in 0..15 {
        assert_eq!(rt; info(rt.alloc(), &INFO[..len]), info_cut(len));
    }
    for (at, turn, answer) in INFOS {
        let bytes = turned(rt.alloc(), INFO, at, turn)?;
        assert_eq!(rt; info(rt.alloc(), bytes.as_slice()), answer);
    }
    Ok(())
}

/// A region as its id, and the lengths of its table, its start and its end.
type Region = Result<(u64, usize, usize, Option<usize>), RecordError>;

fn region(alloc: Global, bytes: &[u8]) -> Region {
    let region = read_region_info(alloc, bytes)?;
    let end = match &region.end {
        Some(row) => Some(row.len()),
        None => None,
    };
    let table = region.table.as_slice().len();
    Ok((region.id, table, region.start.len(), end))
}

/// An id at 0, a table at 2 with its namespace at 4 and its qualifier at 13, a start at 16 and an end at 19.
const REGION: &[u8; 23] = b"\x08\x07\x12\x0c\x0a\x07default\x12\x01t\x1a\x01a\x22\x02bc";

/// What a front of the region of so many bytes is answered.
fn region_cut(len: usize) -> Region {
    match len {
        0 => Err(RecordError::MissingField(1)),
        1 => Err(RecordError::BadRecord(0)),
        2 => Err(RecordError::MissingField(2)),
        16 => Ok((7, 1, 0, None)),
        17 | 18 => Err(RecordError::BadRecord(16)),
        19 => Ok((7, 1, 1, None)),
        20 | 21 | 22 => Err(RecordError::BadRecord(19)),
        23 => Ok((7, 1, 1, Some(2))),
        _ => Err(RecordError::BadRecord(2)),
    }
}

const REGIONS: [(usize, u8, Region); 18] = [
    (0, UNKNOWN, Err(RecordError::MissingField(1))),
    (0, OTHER, Err(RecordError::BadRecord(0))),
    (0, WRONG, Err(RecordError::BadRecord(0))),
    (2, UNKNOWN, Err(RecordError::MissingField(2))),
    (2, OTHER, Err(RecordError::BadRecord(2))),
    (2, WRONG, Err(RecordError::BadRecord(2))),
    // Without its namespace the table's is `default`.
    (4, UNKNOWN, Ok((7, 1, 1, Some(2)))),
    (4, OTHER, Err(RecordError::BadRecord(4))),
    (4, WRONG, Err(RecordError::BadRecord(4))),
    (13, UNKNOWN, Err(RecordError::MissingField(2))),
    (13, OTHER, Err(RecordError::BadRecord(13))),
    (13, WRONG, Err(RecordError::BadRecord(13))),
    (16, UNKNOWN, Ok((7, 1, 0, Some(2)))),
    (16, OTHER, Err(RecordError::BadRecord(16))),
    (16, WRONG, Err(RecordError::BadRecord(16))),
    (19, UNKNOWN, Ok((7, 1, 1, None))),
    (19, OTHER, Err(RecordError::BadRecord(19))),
    (19, WRONG, Err(RecordError::BadRecord(19))),
];

#[test]
fn regions_are_cut_and_turned(rt: HostRuntime) -> Result<(), Fail> {
    for len in 0..24 {
        assert_eq!(rt; region(rt.alloc(), &REGION[..len]), region_cut(len));
    }
    for (at, turn, answer) in REGIONS {
        let bytes = turned(rt.alloc(), REGION, at, turn)?;
        assert_eq!(rt; region(rt.alloc(), bytes.as_slice()), answer);
    }
    Ok(())
}
