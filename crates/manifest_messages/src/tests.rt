//! Manifests read, cut at each byte, and with fields that are wrong.

use crate::{read_manifest, read_region_manifest};
use field_reader::RecordError;
use snapshot_records::{Manifest, RegionManifest};
use std::alloc::Global;
use std::process::Abort;

/// The file of a region's own, as its manifest names it.
pub(crate) const REGION: &[u8; 57] =
    b"\x08\x01\x12\x07\x08\x07\x12\x03\x12\x01t\x1a\x29\x0a\x01f\x12\x24\x0a\x200000000000000001000000000000000a\x18\x05\xa0\x06\x09";

/// A table `t` whose family `f` shows three versions, and one region of one file.
pub(crate) const MANIFEST: &[u8; 86] =
    b"\x0a\x19\x0a\x03\x12\x01t\x1a\x12\x0a\x01f\x12\x0d\x0a\x08VERSIONS\x12\x013\x12\x39\x08\x01\x12\x07\x08\x07\x12\x03\x12\x01t\x1a\x29\x0a\x01f\x12\x24\x0a\x200000000000000001000000000000000a\x18\x05\xa0\x06\x09";

/// A region's id and number, how many files it has, and the size and the half of the last.
pub(crate) type Region = (u64, u64, usize, u64, Option<bool>);

fn region_parts(region: &RegionManifest) -> Region {
    let files = region.files.as_slice();
    match files.last() {
        Some(file) => {
            let half = match &file.2 {
                Some(reference) => Some(reference.top),
                None => None,
            };
            (region.info.id, region.seq, files.len(), file.3, half)
        }
        None => (region.info.id, region.seq, 0, 0, None),
    }
}

pub(crate) fn region(alloc: Global, bytes: &[u8]) -> Result<Region, RecordError> {
    let region = read_region_manifest(alloc, bytes)?;
    Ok(region_parts(&region))
}

/// How many families and regions a manifest has, and how many versions the first family shows.
fn manifest_parts(manifest: &Manifest) -> (usize, u32, usize) {
    let families = manifest.schema.families.as_slice();
    let versions = match families.first() {
        Some(family) => family.1,
        None => 0,
    };
    (families.len(), versions, manifest.regions.len())
}

pub(crate) fn manifest(alloc: Global, bytes: &[u8]) -> Result<(usize, u32, usize), RecordError> {
    let manifest = read_manifest(alloc, bytes)?;
    Ok(manifest_parts(&manifest))
}

/// Regions, and bytes that are none. A half's name is its file's, a dot and its parent's.
const REGIONS: [(&[u8], Result<Region, RecordError>); 18] = [
    (REGION, Ok((7, 9, 1, 5, None))),
    (
        b"\x12\x07\x08\x07\x12\x03\x12\x01t\xa0\x06\x00",
        Ok((7, 0, 0, 0, None)),
    ),
    // Without a number, and without a region.
    (
        b"\x12\x07\x08\x07\x12\x03\x12\x01t",
        Err(RecordError::MissingField(100)),
    ),
    (b"\xa0\x06\x00", Err(RecordError::MissingField(2))),
    // A region without its table, and one of another namespace.
    (
        b"\x12\x02\x08\x07\xa0\x06\x00",
        Err(RecordError::MissingField(2)),
    ),
    (
        b"\x12\x09\x08\x07\x12\x05\x0a\x01x\x12\x00\xa0\x06\x00",
        Err(RecordError::BadRecord(6)),
    ),
    // The number, in bytes of another kind.
    (
        b"\x12\x07\x08\x07\x12\x03\x12\x01t\xa2\x06\x00",
        Err(RecordError::BadRecord(9)),
    ),
    // Two families, in their order and out of it, and one twice.
    (
        b"\x1a\x03\x0a\x01f\x1a\x03\x0a\x01g\x12\x07\x08\x07\x12\x03\x12\x01t\xa0\x06\x02",
        Ok((7, 2, 0, 0, None)),
    ),
    (
        b"\x1a\x03\x0a\x01g\x1a\x03\x0a\x01f\x12\x07\x08\x07\x12\x03\x12\x01t\xa0\x06\x02",
        Err(RecordError::BadRecord(5)),
    ),
    (
        b"\x1a\x03\x0a\x01f\x1a\x03\x0a\x01f\x12\x07\x08\x07\x12\x03\x12\x01t\xa0\x06\x02",
        Err(RecordError::BadRecord(5)),
    ),
    // A half with its reference and without it, and a file with one.
    (
        b"\x1a\x51\x0a\x01f\x12\x4c\x0a\x410000000000000001000000000000000a.0123456789abcdef0123456789abcdef\x12\x05\x0a\x01m\x10\x00\x18\x04\x12\x07\x08\x07\x12\x03\x12\x01t\xa0\x06\x02",
        Ok((7, 2, 1, 4, Some(true))),
    ),
    (
        b"\x1a\x4a\x0a\x01f\x12\x45\x0a\x410000000000000001000000000000000a.0123456789abcdef0123456789abcdef\x18\x04",
        Err(RecordError::MissingField(2)),
    ),
    (
        b"\x1a\x2e\x0a\x01f\x12\x29\x0a\x200000000000000001000000000000000a\x12\x05\x0a\x01m\x10\x00",
        Err(RecordError::BadRecord(41)),
    ),
    // Unknown fields, of a family and of a file too; of a size and of a number the last counts.
    (
        b"\x1a\x2f\x0a\x01f\x18\x01\x12\x28\x20\x01\x0a\x200000000000000001000000000000000a\x18\x04\x18\x05\x28\x01\x12\x07\x08\x07\x12\x03\x12\x01t\xa0\x06\x01\xa0\x06\x02",
        Ok((7, 2, 1, 5, None)),
    ),
    // The greatest number, and the one above it.
    (
        b"\x12\x07\x08\x07\x12\x03\x12\x01t\xa0\x06\xff\xff\xff\xff\xff\xff\xff\xff\x7f",
        Ok((7, 9_223_372_036_854_775_807, 0, 0, None)),
    ),
    (
        b"\x12\x07\x08\x07\x12\x03\x12\x01t\xa0\x06\x80\x80\x80\x80\x80\x80\x80\x80\x80\x01",
        Err(RecordError::BadRecord(9)),
    ),
    // A fault of a file's reference is told within it.
    (
        b"\x1a\x51\x0a\x01f\x12\x4c\x0a\x410000000000000001000000000000000a.0123456789abcdef0123456789abcdef\x12\x05\x0a\x01m\x10\x02\x18\x04",
        Err(RecordError::BadRecord(79)),
    ),
    // A name that is none of the three.
    (
        b"\x1a\x08\x0a\x01f\x12\x03\x0a\x01x",
        Err(RecordError::BadRecord(7)),
    ),
];

/// Manifests, and bytes that are none.
const MANIFESTS: [(&[u8], Result<(usize, u32, usize), RecordError>); 14] = [
    (MANIFEST, Ok((1, 3, 1))),
    (b"\x0a\x05\x0a\x03\x12\x01t", Ok((0, 0, 0))),
    // No attribute, two of them, and one that nobody knows.
    (b"\x0a\x0a\x0a\x03\x12\x01t\x1a\x03\x0a\x01f", Ok((1, 1, 0))),
    (
        b"\x0a\x28\x0a\x03\x12\x01t\x1a\x21\x0a\x01f\x12\x0d\x0a\x08VERSIONS\x12\x013\x12\x0d\x0a\x08VERSIONS\x12\x019",
        Ok((1, 9, 0)),
    ),
    (
        b"\x0a\x11\x0a\x03\x12\x01t\x1a\x0a\x0a\x01f\x12\x05\x0a\x03TTL",
        Ok((1, 1, 0)),
    ),
    // Unknown fields of the schema, a family, an attribute and the manifest.
    (
        b"\x0a\x1f\x10\x01\x0a\x03\x12\x01t\x1a\x16\x0a\x01f\x18\x01\x12\x0f\x0a\x08VERSIONS\x18\x01\x12\x015\x18\x01",
        Ok((1, 5, 0)),
    ),
    // Of two schemas the last counts, and the first has to be one.
    (
        b"\x0a\x05\x0a\x03\x12\x01t\x0a\x0a\x0a\x03\x12\x01t\x1a\x03\x0a\x01f",
        Ok((1, 1, 0)),
    ),
    (
        b"\x0a\x05\x0a\x03\x12\x01-\x0a\x05\x0a\x03\x12\x01t",
        Err(RecordError::BadRecord(4)),
    ),
    // No version, a leading zero, no value at all.
    (
        b"\x0a\x19\x0a\x03\x12\x01t\x1a\x12\x0a\x01f\x12\x0d\x0a\x08VERSIONS\x12\x010",
        Err(RecordError::BadRecord(12)),
    ),
    (
        b"\x0a\x1a\x0a\x03\x12\x01t\x1a\x13\x0a\x01f\x12\x0e\x0a\x08VERSIONS\x12\x0201",
        Err(RecordError::BadRecord(12)),
    ),
    (
        b"\x0a\x16\x0a\x03\x12\x01t\x1a\x0f\x0a\x01f\x12\x0a\x0a\x08VERSIONS",
        Err(RecordError::BadRecord(12)),
    ),
    // No table, no family's name, and an unknown field.
    (b"\x0a\x00", Err(RecordError::MissingField(1))),
    (
        b"\x0a\x07\x0a\x03\x12\x01t\x1a\x00",
        Err(RecordError::MissingField(1)),
    ),
    (b"\x18\x05\x0a\x05\x0a\x03\x12\x01t", Ok((0, 0, 0))),
];

fn read_regions(rt: &impl Abort, alloc: Global) {
    for (bytes, answer) in REGIONS {
        assert_eq!(rt; region(alloc, bytes), answer);
    }
}

fn read_manifests(rt: &impl Abort, alloc: Global) {
    for (bytes, answer) in MANIFESTS {
        assert_eq!(rt; manifest(alloc, bytes), answer);
    }
}

/// What a front of the region of so many bytes is answered.
fn region_cut(len: usize) -> Result<Region, RecordError> {
    match len {
        57 => Ok((7, 9, 1, 5, None)),
        0 | 2 => Err(RecordError::MissingField(2)),
        1 => Err(RecordError::BadRecord(0)),
        11 | 54 => Err(RecordError::MissingField(100)),
        _ if len < 11 => Err(RecordError::BadRecord(2)),
        _ if len < 54 => Err(RecordError::BadRecord(11)),
        _ => Err(RecordError::BadRecord(54)),
    }
}

/// What a front of the manifest of so many bytes is answered.
fn manifest_cut(len: usize) -> Result<(usize, u32, usize), RecordError> {
    match len {
        0 => Err(RecordError::MissingField(1)),
        27 => Ok((1, 3, 0)),
        86 => Ok((1, 3, 1)),
        _ if len < 27 => Err(RecordError::BadRecord(0)),
        _ => Err(RecordError::BadRecord(27)),
    }
}

#[test]
fn reads_regions_and_manifests(rt: HostRuntime) {
    read_regions(&rt, rt.alloc());
    read_manifests(&rt, rt.alloc());
}

#[test]
fn reads_fronts(rt: HostRuntime) {
    for len in 0..58 {
        assert_eq!(rt; region(rt.alloc(), &REGION[..len]), region_cut(len));
    }
    for len in 0..87 {
        assert_eq!(rt; manifest(rt.alloc(), &MANIFEST[..len]), manifest_cut(len));
    }
}
