//! Records written, and read again.

use crate::{
    is_split_row, is_writable_region, write_reference, write_region_info, write_snapshot_info,
};
use hb_names::{SnapName, TableName};
use hb_records::RegionInfo;
use hb_wire::Blob;
use snapshot_records::{Reference, SnapshotInfo};
use std::alloc::Global;
use std::test::Fail;

/// The record of a reference behind an `x`.
fn reference_record(alloc: Global, row: &[u8], top: bool) -> Result<Blob, Fail> {
    let row = Blob::copy_of(alloc, row)?;
    let mut out = Blob::copy_of(alloc, b"x")?;
    let reference = Reference { row, top };
    if is_split_row(reference.row.as_slice()) {
        write_reference(&reference, &mut out)?;
    }
    Ok(out)
}

#[test]
fn writes_references(rt: HostRuntime) -> Result<(), Fail> {
    let bottom = reference_record(rt.alloc(), b"m", false)?;
    assert_eq!(rt; bottom.as_slice(), b"xPBUF\x0a\x01m\x10\x01".as_slice());
    let top = reference_record(rt.alloc(), b"mn", true)?;
    assert_eq!(rt; top.as_slice(), b"xPBUF\x0a\x02mn\x10\x00".as_slice());
    Ok(())
}

/// The record of a description.
fn info_record(alloc: Global, created: u64, flush: bool) -> Result<Blob, Fail> {
    let name = SnapName::read(alloc, b"s1")?;
    let table = TableName::read(alloc, b"t")?;
    let mut out = Blob::copy_of(alloc, b"")?;
    let info = SnapshotInfo {
        name,
        table,
        created,
        flush,
    };
    write_snapshot_info(&info, &mut out)?;
    Ok(out)
}

#[test]
fn writes_descriptions(rt: HostRuntime) -> Result<(), Fail> {
    let disabled = info_record(rt.alloc(), 300, false)?;
    assert_eq!(rt;
        disabled.as_slice(),
        b"\x0a\x02s1\x12\x01t\x18\xac\x02\x20\x00\x28\x02".as_slice()
    );
    let flushed = info_record(rt.alloc(), 0, true)?;
    assert_eq!(rt;
        flushed.as_slice(),
        b"\x0a\x02s1\x12\x01t\x18\x00\x20\x01\x28\x02".as_slice()
    );
    Ok(())
}

/// The record of a region of the table `t` with the id 7.
fn region_record(alloc: Global, start: &[u8], end: Option<&[u8]>) -> Result<Blob, Fail> {
    let table = TableName::read(alloc, b"t")?;
    let start = Blob::copy_of(alloc, start)?;
    let end = match end {
        Some(row) => Some(Blob::copy_of(alloc, row)?),
        None => None,
    };
    let mut out = Blob::copy_of(alloc, b"")?;
    let info = RegionInfo {
        id: 7,
        table,
        start,
        end,
    };
    if is_writable_region(&info) {
        write_region_info(&info, &mut out)?;
    }
    Ok(out)
}

#[test]
fn writes_regions(rt: HostRuntime) -> Result<(), Fail> {
    let whole = region_record(rt.alloc(), b"", None)?;
    assert_eq!(rt;
        whole.as_slice(),
        b"\x08\x07\x12\x0c\x0a\x07default\x12\x01t".as_slice()
    );
    let middle = region_record(rt.alloc(), b"a", Some(b"bc"))?;
    assert_eq!(rt;
        middle.as_slice(),
        b"\x08\x07\x12\x0c\x0a\x07default\x12\x01t\x1a\x01a\x22\x02bc".as_slice()
    );
    Ok(())
}
