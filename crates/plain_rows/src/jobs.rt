//! What a script asks, and what an activity holds, as the machine takes it.

use crate::names::{
    Made, bytes, family_name, family_names, push, region_key, snap_name, split_rows, table_name,
};
use crate::rows::{Asked, Held, OfTable};
use hb_cell::Kind;
use hb_wire::{Blob, Items};
use plain_model::{Hold, Job, PutCell};
use std::alloc::Global;

/// A cell of a family, which alone matters for the reply.
fn put_cell(alloc: Global, family: &str) -> Made<PutCell> {
    Ok(PutCell {
        row: bytes(alloc, "r")?,
        family: family_name(alloc, family)?,
        qualifier: Blob::from_vec(Vec::new(alloc)),
        ts: None,
        kind: Kind::Put,
        value: Blob::from_vec(Vec::new(alloc)),
    })
}

fn create(
    alloc: Global,
    table: &str,
    families: &[&'static str],
    splits: &[&'static str],
) -> Made<Job> {
    Ok(Job::Create {
        table: table_name(alloc, table)?,
        families: family_names(alloc, families)?,
        versions: 1,
        splits: split_rows(alloc, splits)?,
    })
}

/// The job that is asked of a table.
fn table_job(alloc: Global, name: &str, asked: &OfTable) -> Made<Job> {
    let table = table_name(alloc, name)?;
    Ok(match asked {
        OfTable::Create(families, splits) => create(alloc, name, *families, *splits)?,
        OfTable::Put(family) => Job::Put {
            table,
            cell: put_cell(alloc, *family)?,
        },
        OfTable::Scan => Job::Scan { table },
        OfTable::Flush => Job::Flush { table },
        OfTable::Compact => Job::Compact {
            table,
            major: false,
        },
        OfTable::MajorCompact => Job::Compact { table, major: true },
        OfTable::Discharge => Job::Discharge { table },
        OfTable::Split(row) => Job::Split {
            table,
            row: bytes(alloc, *row)?,
        },
        OfTable::Disable => Job::Disable { table },
        OfTable::Enable => Job::Enable { table },
        OfTable::Drop => Job::Drop { table },
        OfTable::Snapshot(snapshot) => Job::Snapshot {
            table,
            snapshot: snap_name(alloc, *snapshot)?,
        },
        OfTable::BulkLoad(folder) => Job::Bulk {
            table,
            folder: bytes(alloc, *folder)?,
        },
    })
}

/// The job that is asked for.
pub(crate) fn job(alloc: Global, asked: &Asked) -> Made<Job> {
    Ok(match asked {
        Asked::Of(table, asked) => table_job(alloc, *table, asked)?,
        Asked::ListSnapshots => Job::ListSnapshots,
        Asked::DeleteSnapshot(name) => Job::DeleteSnapshot {
            snapshot: snap_name(alloc, *name)?,
        },
        Asked::CloneSnapshot(name, table) => Job::Clone {
            snapshot: snap_name(alloc, *name)?,
            table: table_name(alloc, *table)?,
        },
        Asked::RestoreSnapshot(name) => Job::Restore {
            snapshot: snap_name(alloc, *name)?,
        },
        Asked::Janitor => Job::Janitor,
        Asked::Clean => Job::Clean,
    })
}

/// The hold that is named.
pub(crate) fn hold(alloc: Global, held: &Held) -> Made<Hold> {
    Ok(match held {
        Held::Table(table) => Hold::Table(table_name(alloc, *table)?),
        Held::Region(region) => Hold::Region(region_key(alloc, region)?),
        Held::Flush(region) => Hold::Flush(region_key(alloc, region)?),
        Held::Compact(region) => Hold::Compact(region_key(alloc, region)?),
        Held::Load(table) => Hold::Load(table_name(alloc, *table)?),
        Held::Take(name, table) => Hold::Take(snap_name(alloc, *name)?, table_name(alloc, *table)?),
        Held::Use(name) => Hold::Use(snap_name(alloc, *name)?),
        Held::Erase(name) => Hold::Erase(snap_name(alloc, *name)?),
        Held::Pass => Hold::Pass,
    })
}

pub(crate) fn holds(alloc: Global, held: &[Held]) -> Made<Items<Hold>> {
    let mut holds = Vec::new(alloc);
    for one in held {
        push(&mut holds, hold(alloc, one)?)?;
    }
    Ok(Items::from_vec(holds))
}
