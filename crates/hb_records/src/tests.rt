//! Copies of records, and that they are told apart.

use crate::{RegionInfo, TableSchema};
use hb_names::{FamilyName, RegionName, TableName, encode_region};
use hb_wire::{Blob, Copied, Items};
use std::test::Fail;

#[test]
fn a_region_is_copied(rt: HostRuntime) -> Result<(), Fail> {
    let alloc = rt.alloc();
    let region = RegionInfo {
        id: 4_294_967_297,
        table: TableName::read(alloc, b"t")?,
        start: Blob::copy_of(alloc, b"")?,
        end: Some(Blob::copy_of(alloc, b"m")?),
    };
    let copy = region.copy()?;
    assert!(rt; copy == region);
    let other = RegionInfo { end: None, ..copy };
    assert!(rt; other != region);
    let name = RegionName {
        table: other.table,
        start: other.start,
        id: other.id,
    };
    assert_eq!(rt;
        encode_region(alloc, &name)?.as_slice(),
        b"9f17f9fc01258e59b4bf2e99f8590819".as_slice()
    );
    Ok(())
}

#[test]
fn a_schema_is_copied(rt: HostRuntime) -> Result<(), Fail> {
    let alloc = rt.alloc();
    let families = vec![in alloc; (FamilyName::read(alloc, b"f")?, 3)]?;
    let schema = TableSchema {
        table: TableName::read(alloc, b"t")?,
        families: Items::from_vec(families),
    };
    let copy = schema.copy()?;
    assert!(rt; copy == schema);
    let other = TableSchema {
        families: Items::new(alloc),
        ..copy
    };
    assert!(rt; other != schema);
    Ok(())
}
