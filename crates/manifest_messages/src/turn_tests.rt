//! Manifests with each of their tags turned: into one of an unknown field, of another kind, or of no kind at all.

use crate::tests::{MANIFEST, REGION, Region, manifest, region};
use field_reader::RecordError;
use std::alloc::{AllocError, Global};
use std::test::Fail;

/// Turns a tag's number into that of an unknown field.
const UNKNOWN: u8 = 0x40;

/// Turns bytes into a number, and a number into bytes.
const OTHER: u8 = 0x02;

/// Turns bytes into a kind that there is not, and a number into eight bytes.
const WRONG: u8 = 0x01;

/// The bytes, of which one is turned.
fn turned(alloc: Global, bytes: &[u8], at: usize, turn: u8) -> Result<Vec<u8>, AllocError> {
    let mut copy = Vec::new(alloc);
    for (i, byte) in bytes.iter().enumerate() {
        copy.push(if i == at { *byte ^ turn } else { *byte })?;
    }
    Ok(copy)
}

/// The tags of a region: its version, its info with an id and a table with a qualifier, a family with a name and a
/// file with a name and a size, and the region's number; and what is answered where each is of an unknown field.
const REGIONS: [(usize, Result<Region, RecordError>); 11] = [
    (0, Ok((7, 9, 1, 5, None))),
    (2, Err(RecordError::MissingField(2))),
    (4, Err(RecordError::MissingField(1))),
    (6, Err(RecordError::MissingField(2))),
    (8, Err(RecordError::MissingField(2))),
    (11, Ok((7, 9, 0, 0, None))),
    (13, Err(RecordError::MissingField(1))),
    (16, Ok((7, 9, 0, 0, None))),
    (18, Err(RecordError::MissingField(1))),
    (52, Ok((7, 9, 1, 0, None))),
    (54, Err(RecordError::MissingField(100))),
];

#[test]
fn regions_are_turned(rt: HostRuntime) -> Result<(), Fail> {
    for (at, answer) in REGIONS {
        let bytes = turned(rt.alloc(), REGION, at, UNKNOWN)?;
        assert_eq!(rt; region(rt.alloc(), bytes.as_slice()), answer);
        for turn in [OTHER, WRONG] {
            let bytes = turned(rt.alloc(), REGION, at, turn)?;
            assert_eq!(rt;
                region(rt.alloc(), bytes.as_slice()),
                Err(RecordError::BadRecord(at as u64))
            );
        }
    }
    Ok(())
}

/// The tags of a manifest: its schema with a table with a qualifier and a family with a name and an attribute with a
/// name and a value, and a region; and what is answered where each is of an unknown field.
const MANIFESTS: [(usize, Result<(usize, u32, usize), RecordError>); 9] = [
    (0, Err(RecordError::MissingField(1))),
    (2, Err(RecordError::MissingField(1))),
    (4, Err(RecordError::MissingField(2))),
    (7, Ok((0, 0, 1))),
    (9, Err(RecordError::MissingField(1))),
    (12, Ok((1, 1, 1))),
    (14, Err(RecordError::MissingField(1))),
    // VERSIONS without a value is a fault of its attribute.
    (24, Err(RecordError::BadRecord(12))),
    (27, Ok((1, 3, 0))),
];

#[test]
fn manifests_are_turned(rt: HostRuntime) -> Result<(), Fail> {
    for (at, answer) in MANIFESTS {
        let bytes = turned(rt.alloc(), MANIFEST, at, UNKNOWN)?;
        assert_eq!(rt; manifest(rt.alloc(), bytes.as_slice()), answer);
        for turn in [OTHER, WRONG] {
            let bytes = turned(rt.alloc(), MANIFEST, at, turn)?;
            assert_eq!(rt;
                manifest(rt.alloc(), bytes.as_slice()),
                Err(RecordError::BadRecord(at as u64))
            );
        }
    }
    Ok(())
}
