//! Messages read, cut at each byte, and with other tags.

use crate::{read_reference, read_region_info, read_snapshot_info};
use field_reader::RecordError;
use std::alloc::Global;
use std::process::Abort;

/// A reference as its row's first byte, its row's length and its half.
fn reference_parts(alloc: Global, bytes: &[u8]) -> Result<(usize, bool), RecordError> {
    let reference = read_reference(alloc, bytes)?;
    Ok((reference.row.len(), reference.top))
}

/// The reference of the bottom half at row `m`, as HBase writes it.
const BOTTOM: &[u8; 9] = b"PBUF\x0a\x01m\x10\x01";

/// References, and bytes that are none: which field is missing, or where one is wrong.
const REFERENCES: [(&[u8], Result<(usize, bool), RecordError>); 17] = [
    (BOTTOM, Ok((1, false))),
    (b"PBUF\x0a\x02mn\x10\x00", Ok((2, true))),
    // The last of two values counts.
    (b"PBUF\x10\x00\x0a\x01m\x0a\x02no\x10\x01", Ok((2, false))),
    // Unknown fields of each kind are passed over.
    (
        b"PBUF\x18\x05\x0a\x01m\x22\x01x\x10\x00\x2d\x01\x02\x03\x04",
        Ok((1, true)),
    ),
    (b"", Err(RecordError::BadRecord(0))),
    (b"PBU", Err(RecordError::BadRecord(0))),
    (b"PBUX\x0a\x01m\x10\x01", Err(RecordError::BadRecord(0))),
    (b"PBUF", Err(RecordError::MissingField(1))),
    (b"PBUF\x0a", Err(RecordError::BadRecord(4))),
    (b"PBUF\x0a\x01", Err(RecordError::BadRecord(4))),
    (b"PBUF\x0a\x01m", Err(RecordError::MissingField(2))),
    (b"PBUF\x0a\x01m\x10", Err(RecordError::BadRecord(7))),
    (b"PBUF\x10\x01", Err(RecordError::MissingField(1))),
    // No row, a half that there is not, and values of other kinds.
    (b"PBUF\x0a\x00\x10\x01", Err(RecordError::BadRecord(4))),
    (b"PBUF\x0a\x01m\x10\x02", Err(RecordError::BadRecord(7))),
    (b"PBUF\x08\x01\x10\x01", Err(RecordError::BadRecord(4))),
    (b"PBUF\x0a\x01m\x12\x01\x01", Err(RecordError::BadRecord(7))),
];

/// Reads each of some bytes, and compares the answer.
fn read_references(
    rt: &impl Abort,
    alloc: Global,
    table: &[(&[u8], Result<(usize, bool), RecordError>)],
) {
    for (bytes, answer) in table {
        assert_eq!(rt; reference_parts(alloc, bytes), *answer);
    }
}

#[test]
fn reads_references(rt: HostRuntime) {
    read_references(&rt, rt.alloc(), &REFERENCES);
}

/// A description as the lengths of its name and table, its time and how it was made.
fn info_parts(alloc: Global, bytes: &[u8]) -> Result<(usize, usize, u64, bool), RecordError> {
    let info = read_snapshot_info(alloc, bytes)?;
    Ok((
        info.name.as_slice().len(),
        info.table.as_slice().len(),
        info.created,
        info.flush,
    ))
}

/// Descriptions of snapshots, and bytes that are none.
const INFOS: [(&[u8], Result<(usize, usize, u64, bool), RecordError>); 12] = [
    (
        b"\x0a\x02s1\x12\x01t\x18\xac\x02\x20\x00\x28\x02",
        Ok((2, 1, 300, false)),
    ),
    (b"\x12\x01t\x0a\x02s1", Ok((2, 1, 0, true))),
    (
        b"\x0a\x01a\x0a\x02s1\x12\x01t\x20\x00\x20\x01",
        Ok((2, 1, 0, true)),
    ),
    // Unknown fields of each kind are passed over, and of a number the last value counts.
    (
        b"\x30\x05\x0a\x02s1\x3a\x01x\x12\x01t\x45\x01\x02\x03\x04\x49\x01\x02\x03\x04\x05\x06\x07\x08",
        Ok((2, 1, 0, true)),
    ),
    (
        b"\x0a\x02s1\x12\x01t\x18\x05\x18\xff\xff\xff\xff\xff\xff\xff\xff\xff\x01",
        Ok((2, 1, 18_446_744_073_709_551_615, true)),
    ),
    (b"", Err(RecordError::MissingField(1))),
    (b"\x0a\x02s1", Err(RecordError::MissingField(2))),
    (b"\x12\x01t", Err(RecordError::MissingField(1))),
    // A first value that is no name, though the last is one.
    (
        b"\x0a\x01-\x0a\x02s1\x12\x01t",
        Err(RecordError::BadRecord(0)),
    ),
    (
        b"\x0a\x02s1\x12\x01t\x20\x02",
        Err(RecordError::BadRecord(7)),
    ),
    (
        b"\x0a\x02s1\x12\x01t\x1a\x01x",
        Err(RecordError::BadRecord(7)),
    ),
    (b"\x0a\x02s1\x12\x05t", Err(RecordError::BadRecord(4))),
];

/// Reads each of some bytes, and compares the answer.
fn read_infos(
    rt: &impl Abort,
    alloc: Global,
    table: &[(&[u8], Result<(usize, usize, u64, bool), RecordError>)],
) {
    for (bytes, answer) in table {
        assert_eq!(rt; info_parts(alloc, bytes), *answer);
    }
}

#[test]
fn reads_descriptions(rt: HostRuntime) {
    read_infos(&rt, rt.alloc(), &INFOS);
}

/// A region as its id, and the lengths of its table, its start and its end.
fn region_parts(
    alloc: Global,
    bytes: &[u8],
) -> Result<(u64, usize, usize, Option<usize>), RecordError> {
    let region = read_region_info(alloc, bytes)?;
    let end = match &region.end {
        Some(row) => Some(row.len()),
        None => None,
    };
    Ok((
        region.id,
        region.table.as_slice().len(),
        region.start.len(),
        end,
    ))
}

/// Regions, and bytes that are none; of a table's message the field within it is told.
const REGIONS: [(
    &[u8],
    Result<(u64, usize, usize, Option<usize>), RecordError>,
); 12] = [
    (
        b"\x08\x07\x12\x0b\x0a\x07default\x12\x00",
        Err(RecordError::BadRecord(13)),
    ),
    (b"\x08\x07\x12\x03\x12\x01t", Ok((7, 1, 0, None))),
    (
        b"\x08\x07\x12\x0c\x0a\x07default\x12\x01t\x1a\x01a\x22\x02bc",
        Ok((7, 1, 1, Some(2))),
    ),
    // Unknown fields are passed over, of the table's message too.
    (
        b"\x28\x05\x08\x07\x32\x01x\x12\x05\x18\x01\x12\x01t",
        Ok((7, 1, 0, None)),
    ),
    // Of two values the last counts, and of an end that is empty at last there is none.
    (
        b"\x08\x06\x08\x07\x12\x03\x12\x01t\x12\x04\x12\x02tu\x1a\x01a\x1a\x02bc",
        Ok((7, 2, 2, None)),
    ),
    (
        b"\x08\x07\x12\x06\x12\x01s\x12\x01t\x22\x01a\x22\x00",
        Ok((7, 1, 0, None)),
    ),
    // Keys that are there and empty count as absent.
    (
        b"\x08\x07\x12\x03\x12\x01t\x1a\x00\x22\x00",
        Ok((7, 1, 0, None)),
    ),
    (b"\x12\x03\x12\x01t", Err(RecordError::MissingField(1))),
    (b"\x08\x07", Err(RecordError::MissingField(2))),
    // The inner message lacks its second field before the outer one lacks its first.
    (b"\x12\x00", Err(RecordError::MissingField(2))),
    (b"\x08\x07\x12\x03\x0a\x01d", Err(RecordError::BadRecord(4))),
    (b"\x08\x07\x12\x03\x12\x02t", Err(RecordError::BadRecord(4))),
];

/// Reads each of some bytes, and compares the answer.
fn read_regions(
    rt: &impl Abort,
    alloc: Global,
    table: &[(
        &[u8],
        Result<(u64, usize, usize, Option<usize>), RecordError>,
    )],
) {
    for (bytes, answer) in table {
        assert_eq!(rt; region_parts(alloc, bytes), *answer);
    }
}

#[test]
fn reads_regions(rt: HostRuntime) {
    read_regions(&rt, rt.alloc(), &REGIONS);
}
