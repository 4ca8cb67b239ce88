//! Names and regions of a script as the machine takes them.

use crate::rows::Region;
use hb_names::{Encoded, FamilyName, NameError, SnapName, TableName};
use hb_records::RegionInfo;
use hb_wire::{Blob, Items, NoMemory};
use plain_model::RegionKey;
use plain_tables::keys::key_of;
use std::alloc::Global;

/// What a row is made into, or why not.
pub(crate) type Made<T> = Result<T, NameError>;

/// Adds an item at the end of a list.
pub(crate) fn push<T: Drop>(items: &mut Vec<T>, item: T) -> Result<(), NoMemory> {
    items.push(item)?;
    Ok(())
}

pub(crate) fn bytes(alloc: Global, text: &str) -> Result<Blob, NoMemory> {
    Blob::copy_of(alloc, text.as_bytes())
}

pub(crate) fn table_name(alloc: Global, text: &str) -> Made<TableName> {
    TableName::read(alloc, text.as_bytes())
}

pub(crate) fn family_name(alloc: Global, text: &str) -> Made<FamilyName> {
    FamilyName::read(alloc, text.as_bytes())
}

pub(crate) fn snap_name(alloc: Global, text: &str) -> Made<SnapName> {
    SnapName::read(alloc, text.as_bytes())
}

/// The row before which a region ends; there is none at no bytes.
fn end_row(alloc: Global, end: &str) -> Result<Option<Blob>, NoMemory> {
    if end.is_empty() {
        return Ok(None);
    }
    Ok(Some(bytes(alloc, end)?))
}

pub(crate) fn region_info(alloc: Global, region: &Region) -> Made<RegionInfo> {
    Ok(RegionInfo {
        id: region.id,
        table: table_name(alloc, region.table)?,
        start: bytes(alloc, region.start)?,
        end: end_row(alloc, region.end)?,
    })
}

pub(crate) fn region_key(alloc: Global, region: &Region) -> Made<RegionKey> {
    let info = region_info(alloc, region)?;
    Ok(key_of(alloc, &info)?)
}

pub(crate) fn region_infos(alloc: Global, regions: &[Region]) -> Made<Items<RegionInfo>> {
    let mut infos = Vec::new(alloc);
    for region in regions {
        push(&mut infos, region_info(alloc, region)?)?;
    }
    Ok(Items::from_vec(infos))
}

pub(crate) fn encoded_names(alloc: Global, regions: &[Region]) -> Made<Items<Encoded>> {
    let mut names = Vec::new(alloc);
    for region in regions {
        push(&mut names, region_key(alloc, region)?.region)?;
    }
    Ok(Items::from_vec(names))
}

pub(crate) fn family_names(alloc: Global, families: &[&'static str]) -> Made<Items<FamilyName>> {
    let mut names = Vec::new(alloc);
    for family in families {
        push(&mut names, family_name(alloc, *family)?)?;
    }
    Ok(Items::from_vec(names))
}

pub(crate) fn split_rows(alloc: Global, splits: &[&'static str]) -> Made<Items<Blob>> {
    let mut rows = Vec::new(alloc);
    for split in splits {
        push(&mut rows, bytes(alloc, *split)?)?;
    }
    Ok(Items::from_vec(rows))
}
