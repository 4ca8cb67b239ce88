//! What is answered.

use crate::Actor;
use hb_cell::Cell;
use hb_names::{Encoded, FamilyName, Place, SnapName};
use hb_wire::{Blob, Copied, Items, NoMemory};

/// The answer to a job: the first five are no refusals.
#[derive(Debug, Drop)]
pub enum Reply {
    Fine,
    Cells(Items<Cell>),
    Snapshots(Items<SnapName>),
    Deleted(Items<Place>),
    /// How many split regions left their sets.
    Removed(u32),
    TableExists,
    TableNotFound,
    TableNotEnabled,
    TableNotDisabled,
    NameTaken,
    DuplicateFamily(FamilyName),
    UnknownFamily(FamilyName),
    BadSplitKey,
    HasReferences,
    TooManyRegions,
    SnapshotExists,
    SnapshotNotFound,
    /// The least actor that uses the snapshot.
    InUse(Actor),
    /// The least name of a snapshot that is being taken.
    Taking(SnapName),
    EmptyGroup,
    BadFile(Blob),
    DuplicateKey(Blob),
    TooManyFiles(Encoded, FamilyName),
}

impl Copied for Reply {
    fn copy(&self) -> Result<Reply, NoMemory> {
        Ok(match self {
            Reply::Fine => Reply::Fine,
            Reply::Cells(cells) => Reply::Cells(cells.copy()?),
            Reply::Snapshots(names) => Reply::Snapshots(names.copy()?),
            Reply::Deleted(places) => Reply::Deleted(places.copy()?),
            Reply::Removed(regions) => Reply::Removed(*regions),
            Reply::TableExists => Reply::TableExists,
            Reply::TableNotFound => Reply::TableNotFound,
            Reply::TableNotEnabled => Reply::TableNotEnabled,
            Reply::TableNotDisabled => Reply::TableNotDisabled,
            Reply::NameTaken => Reply::NameTaken,
            Reply::DuplicateFamily(family) => Reply::DuplicateFamily(family.copy()?),
            Reply::UnknownFamily(family) => Reply::UnknownFamily(family.copy()?),
            Reply::BadSplitKey => Reply::BadSplitKey,
            Reply::HasReferences => Reply::HasReferences,
            Reply::TooManyRegions => Reply::TooManyRegions,
            Reply::SnapshotExists => Reply::SnapshotExists,
            Reply::SnapshotNotFound => Reply::SnapshotNotFound,
            Reply::InUse(actor) => Reply::InUse(*actor),
            Reply::Taking(snapshot) => Reply::Taking(snapshot.copy()?),
            Reply::EmptyGroup => Reply::EmptyGroup,
            Reply::BadFile(place) => Reply::BadFile(place.copy()?),
            Reply::DuplicateKey(key) => Reply::DuplicateKey(key.copy()?),
            Reply::TooManyFiles(region, family) => {
                Reply::TooManyFiles(region.copy()?, family.copy()?)
            }
        })
    }
}
