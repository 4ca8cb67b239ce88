//! Records written and read again: manifests by their bytes, the others with long values.

use crate::{
    is_writable_manifest, is_writable_region_manifest, write_manifest, write_region_manifest,
};
use hb_names::{SnapName, TableName};
use hb_records::RegionInfo;
use hb_wire::Blob;
use manifest_messages::{read_manifest, read_region_manifest};
use snapshot_messages::{read_reference, read_region_info, read_snapshot_info};
use snapshot_records::{Reference, SnapshotInfo};
use snapshot_writers::{
    is_split_row, is_writable_region, write_reference, write_region_info, write_snapshot_info,
};
use std::alloc::{AllocError, Global};
use std::test::Fail;

/// A manifest read, and written behind an `x`.
fn manifest_again(alloc: Global, bytes: &[u8]) -> Result<Blob, Fail> {
    let manifest = read_manifest(alloc, bytes)?;
    let mut out = Blob::copy_of(alloc, b"x")?;
    if is_writable_manifest(&manifest) {
        write_manifest(&manifest, &mut out)?;
    }
    Ok(out)
}

/// A table `t` whose family `f` shows three versions.
const SCHEMA: &[u8; 36] =
    b"\x0a\x22\x0a\x0c\x0a\x07default\x12\x01t\x1a\x12\x0a\x01f\x12\x0d\x0a\x08VERSIONS\x12\x013";

/// A region of one file, as a manifest has it.
const PART: &[u8; 68] =
    b"\x12\x42\x08\x01\x12\x10\x08\x07\x12\x0c\x0a\x07default\x12\x01t\x1a\x29\x0a\x01f\x12\x24\x0a\x200000000000000001000000000000000a\x18\x05\xa0\x06\x09";

/// A manifest of so many such regions.
fn manifest_of(alloc: Global, regions: u32) -> Result<Blob, AllocError> {
    let mut bytes = Blob::copy_of(alloc, SCHEMA)?;
    for _ in 0..regions {
        bytes.add(PART)?;
    }
    Ok(bytes)
}

#[test]
fn manifests_are_written_as_read(rt: HostRuntime) -> Result<(), Fail> {
    for (regions, len) in [(0, 37), (1, 105), (2, 173), (300, 20437)] {
        let bytes = manifest_of(rt.alloc(), regions)?;
        let again = manifest_again(rt.alloc(), bytes.as_slice())?;
        assert_eq!(rt; again.len(), len);
        assert_eq!(rt; again.as_slice().split_at(1).1, bytes.as_slice());
    }
    Ok(())
}

/// Manifests, each with the one that is written of it.
const MANIFESTS: [(&[u8], &[u8]); 3] = [
    // Without families and without a namespace.
    (
        b"\x0a\x05\x0a\x03\x12\x01t",
        b"x\x0a\x0e\x0a\x0c\x0a\x07default\x12\x01t",
    ),
    // A family without a number of versions shows one.
    (
        b"\x0a\x0a\x1a\x03\x0a\x01f\x0a\x03\x12\x01t",
        b"x\x0a\x22\x0a\x0c\x0a\x07default\x12\x01t\x1a\x12\x0a\x01f\x12\x0d\x0a\x08VERSIONS\x12\x011",
    ),
    // Of two schemas the last counts; families stand in any order.
    (
        b"\x0a\x05\x0a\x03\x12\x01s\x0a\x2d\x0a\x03\x12\x01t\x1a\x1b\x0a\x01g\x12\x16\x0a\x08VERSIONS\x12\x0a2147483647\x1a\x09\x0a\x01f\x12\x04\x0a\x02IN",
        b"x\x0a\x3f\x0a\x0c\x0a\x07default\x12\x01t\x1a\x1b\x0a\x01g\x12\x16\x0a\x08VERSIONS\x12\x0a2147483647\x1a\x12\x0a\x01f\x12\x0d\x0a\x08VERSIONS\x12\x011",
    ),
];

/// A region read, and written behind an `x`.
fn region_again(alloc: Global, bytes: &[u8]) -> Result<Blob, Fail> {
    let region = read_region_manifest(alloc, bytes)?;
    let mut out = Blob::copy_of(alloc, b"x")?;
    if is_writable_region_manifest(&region) {
        write_region_manifest(&region, &mut out)?;
    }
    Ok(out)
}

/// Regions, each with the one that is written of it: of a family a file and a half, of another a link.
const REGIONS: [(&[u8], &[u8]); 2] = [
    (
        b"\x12\x07\x08\x07\x12\x03\x12\x01t\xa0\x06\x00",
        b"x\x08\x01\x12\x10\x08\x07\x12\x0c\x0a\x07default\x12\x01t\xa0\x06\x00",
    ),
    (
        b"\xa0\x06\x09\x1a\x77\x0a\x01f\x12\x24\x18\x05\x0a\x200000000000000001000000000000000a\x12\x4c\x18\x04\x12\x05\x10\x00\x0a\x01m\x0a\x410000000000000001000000000000000a.0123456789abcdef0123456789abcdef\x1a\x4a\x0a\x01g\x12\x45\x0a\x43t=0123456789abcdef0123456789abcdef-0000000000000001000000000000000a\x12\x07\x08\x07\x12\x03\x12\x01t",
        b"x\x08\x01\x12\x10\x08\x07\x12\x0c\x0a\x07default\x12\x01t\x1a\x77\x0a\x01f\x12\x24\x0a\x200000000000000001000000000000000a\x18\x05\x12\x4c\x0a\x410000000000000001000000000000000a.0123456789abcdef0123456789abcdef\x12\x05\x0a\x01m\x10\x00\x18\x04\x1a\x4c\x0a\x01g\x12\x47\x0a\x43t=0123456789abcdef0123456789abcdef-0000000000000001000000000000000a\x18\x00\xa0\x06\x09",
    ),
];

#[test]
fn one_spelling_is_written(rt: HostRuntime) -> Result<(), Fail> {
    for (bytes, written) in MANIFESTS {
        assert_eq!(rt; manifest_again(rt.alloc(), bytes)?.as_slice(), written);
    }
    for (bytes, written) in REGIONS {
        assert_eq!(rt; region_again(rt.alloc(), bytes)?.as_slice(), written);
    }
    Ok(())
}

/// A row of so many bytes.
fn row_of(alloc: Global, len: usize) -> Result<Blob, AllocError> {
    let bytes = vec![in alloc; b'r'; len]?;
    Ok(Blob::from_vec(bytes))
}

/// How many bytes the reference of a row of so many bytes has, where it has a record and is read from it.
fn reference_again(alloc: Global, len: usize) -> Result<Option<usize>, Fail> {
    let row = row_of(alloc, len)?;
    let reference = Reference { row, top: false };
    let mut out = Blob::copy_of(alloc, b"")?;
    if !is_split_row(reference.row.as_slice()) {
        return Ok(None);
    }
    write_reference(&reference, &mut out)?;
    let again = read_reference(alloc, out.as_slice())?;
    Ok(if again == reference {
        Some(out.len())
    } else {
        None
    })
}

#[test]
fn long_references_are_read_back(rt: HostRuntime) -> Result<(), Fail> {
    for (len, size) in [
        (0, None),
        (1, Some(9)),
        (127, Some(135)),
        (128, Some(137)),
        (300, Some(309)),
        (16383, Some(16392)),
        (16384, Some(16394)),
        (32767, Some(32777)),
        (32768, None),
    ] {
        assert_eq!(rt; reference_again(rt.alloc(), len)?, size);
    }
    Ok(())
}

/// How many bytes the region has whose bounds have so many bytes, where it has a record and is read from it.
fn bounds_again(alloc: Global, start: usize, end: Option<usize>) -> Result<Option<usize>, Fail> {
    let end = match end {
        Some(len) => Some(row_of(alloc, len)?),
        None => None,
    };
    let info = RegionInfo {
        id: 7,
        table: TableName::read(alloc, b"t")?,
        start: row_of(alloc, start)?,
        end,
    };
    let mut out = Blob::copy_of(alloc, b"")?;
    if !is_writable_region(&info) {
        return Ok(None);
    }
    write_region_info(&info, &mut out)?;
    let again = read_region_info(alloc, out.as_slice())?;
    Ok(if again == info { Some(out.len()) } else { None })
}

#[test]
fn long_regions_are_read_back(rt: HostRuntime) -> Result<(), Fail> {
    for (start, end, size) in [
        (0, None, Some(16)),
        (300, Some(32767), Some(33090)),
        (32767, Some(1), Some(32790)),
        (32768, None, None),
        (0, Some(0), None),
        (0, Some(32768), None),
    ] {
        assert_eq!(rt; bounds_again(rt.alloc(), start, end)?, size);
    }
    Ok(())
}

#[test]
fn long_descriptions_are_read_back(rt: HostRuntime) -> Result<(), Fail> {
    let name = row_of(rt.alloc(), 100)?;
    let info = SnapshotInfo {
        name: SnapName::read(rt.alloc(), name.as_slice())?,
        table: TableName::read(rt.alloc(), name.as_slice())?,
        created: 18_446_744_073_709_551_615,
        flush: true,
    };
    let mut out = Blob::copy_of(rt.alloc(), b"")?;
    write_snapshot_info(&info, &mut out)?;
    assert_eq!(rt; out.len(), 219);
    assert!(rt; read_snapshot_info(rt.alloc(), out.as_slice())? == info);
    Ok(())
}
