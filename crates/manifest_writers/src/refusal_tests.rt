//! Which manifests have a record.

use crate::{is_writable_manifest, is_writable_region_manifest};
use hb_names::{FamilyName, TableName};
use hb_records::{RegionInfo, TableSchema};
use hb_wire::{Blob, Items};
use snapshot_records::{Manifest, Reference, RegionManifest};
use std::alloc::Global;
use std::test::Fail;

/// A file by its family, its name, and the row of its half.
type File = (&'static [u8], &'static [u8], Option<&'static [u8]>);

/// A region of the table `t` of these files.
fn region_of(
    alloc: Global,
    seq: u64,
    start: &[u8],
    files: &[File],
) -> Result<RegionManifest, Fail> {
    let mut entries = Vec::new(alloc);
    for (family, name, row) in files {
        let half = match row {
            Some(row) => Some(Reference {
                row: Blob::copy_of(alloc, row)?,
                top: true,
            }),
            None => None,
        };
        let family = FamilyName::read(alloc, family)?;
        entries.push((family, Blob::copy_of(alloc, name)?, half, 5))?;
    }
    let info = RegionInfo {
        id: 7,
        table: TableName::read(alloc, b"t")?,
        start: Blob::copy_of(alloc, start)?,
        end: Some(Blob::copy_of(alloc, b"z")?),
    };
    Ok(RegionManifest {
        info,
        seq,
        files: Items::from_vec(entries),
    })
}

const FILE: &[u8] = b"0000000000000001000000000000000a";

const LINK: &[u8] = b"t=0123456789abcdef0123456789abcdef-0000000000000001000000000000000a";

const HALF: &[u8] = b"0000000000000001000000000000000a.0123456789abcdef0123456789abcdef";

/// Files, and whether a region can have them.
const FILES: [(&[File], bool); 12] = [
    (&[], true),
    (&[(b"f", FILE, None)], true),
    (&[(b"f", LINK, None)], true),
    (&[(b"f", HALF, Some(b"m"))], true),
    (&[(b"f", FILE, None), (b"f", FILE, None)], true),
    (&[(b"f", FILE, None), (b"g", FILE, None)], true),
    // A half without its reference, one at no row, and a reference of no half.
    (&[(b"f", HALF, None)], false),
    (&[(b"f", HALF, Some(b""))], false),
    (&[(b"f", FILE, Some(b"m"))], false),
    (&[(b"f", b"x", None)], false),
    // Families out of order, and one that does not stand together.
    (&[(b"g", FILE, None), (b"f", FILE, None)], false),
    (
        &[(b"f", FILE, None), (b"g", FILE, None), (b"f", FILE, None)],
        false,
    ),
];

#[test]
fn files_are_judged(rt: HostRuntime) -> Result<(), Fail> {
    for (files, answer) in FILES {
        let region = region_of(rt.alloc(), 9, b"a", files)?;
        assert_eq!(rt; is_writable_region_manifest(&region), answer);
    }
    Ok(())
}

/// Whether a manifest has a record whose family shows so many versions, and whose region has this number.
fn is_writable(alloc: Global, versions: u32, seq: u64) -> Result<bool, Fail> {
    let mut families = Vec::new(alloc);
    families.push((FamilyName::read(alloc, b"f")?, versions))?;
    let mut regions = Vec::new(alloc);
    regions.push(region_of(alloc, seq, b"", &[])?)?;
    let schema = TableSchema {
        table: TableName::read(alloc, b"t")?,
        families: Items::from_vec(families),
    };
    Ok(is_writable_manifest(&Manifest {
        schema,
        regions: Items::from_vec(regions),
    }))
}

#[test]
fn manifests_are_judged(rt: HostRuntime) -> Result<(), Fail> {
    for (versions, seq, answer) in [
        (1, 0, true),
        (2_147_483_647, 9_223_372_036_854_775_807, true),
        (0, 0, false),
        (2_147_483_648, 0, false),
        (1, 9_223_372_036_854_775_808, false),
    ] {
        assert_eq!(rt; is_writable(rt.alloc(), versions, seq)?, answer);
    }
    Ok(())
}
