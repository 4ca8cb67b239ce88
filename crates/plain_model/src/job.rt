//! What is asked.

use crate::PutCell;
use hb_names::{FamilyName, SnapName, TableName};
use hb_wire::{Blob, Copied, Items, NoMemory};

/// What a line of a script or a chore asks for. Source: the commands of the HBase shell; own are `Discharge`,
/// `Janitor` and `Clean`, the work of HBase's chores.
#[derive(Debug, Drop)]
pub enum Job {
    /// The names of the completed snapshots.
    ListSnapshots,
    /// A table of these families, each showing so many versions, whose regions begin at no bytes and at the splits.
    Create {
        table: TableName,
        families: Items<FamilyName>,
        versions: u32,
        splits: Items<Blob>,
    },
    /// A cell joins its table.
    Put {
        table: TableName,
        cell: PutCell,
    },
    /// What the table shows.
    Scan {
        table: TableName,
    },
    /// The unflushed cells of the table's regions become files.
    Flush {
        table: TableName,
    },
    /// The files of each region become one; a major compaction drops what no read shows.
    Compact {
        table: TableName,
        major: bool,
    },
    /// The files that compactions replaced go to the archive.
    Discharge {
        table: TableName,
    },
    /// The open region that holds the row becomes two.
    Split {
        table: TableName,
        row: Blob,
    },
    /// The table takes no reads or writes any more.
    Disable {
        table: TableName,
    },
    /// The table takes reads and writes again.
    Enable {
        table: TableName,
    },
    /// The table goes.
    Drop {
        table: TableName,
    },
    /// The table's cells are kept under a name.
    Snapshot {
        table: TableName,
        snapshot: SnapName,
    },
    /// The snapshot goes.
    DeleteSnapshot {
        snapshot: SnapName,
    },
    /// A new table of the snapshot's cells.
    Clone {
        snapshot: SnapName,
        table: TableName,
    },
    /// The snapshot's own table, as it was.
    Restore {
        snapshot: SnapName,
    },
    /// The files of the staging folder join the table.
    Bulk {
        table: TableName,
        folder: Blob,
    },
    /// Split regions that no half file refers to leave their sets.
    Janitor,
    /// Archived files that nothing names and that have expired are deleted.
    Clean,
}

impl Copied for Job {
    fn copy(&self) -> Result<Job, NoMemory> {
        Ok(match self {
            Job::ListSnapshots => Job::ListSnapshots,
            Job::Janitor => Job::Janitor,
            Job::Clean => Job::Clean,
            Job::Create {
                table,
                families,
                versions,
                splits,
            } => Job::Create {
                table: table.copy()?,
                families: families.copy()?,
                versions: *versions,
                splits: splits.copy()?,
            },
            Job::Put { table, cell } => Job::Put {
                table: table.copy()?,
                cell: cell.copy()?,
            },
            Job::Scan { table } => Job::Scan {
                table: table.copy()?,
            },
            Job::Flush { table } => Job::Flush {
                table: table.copy()?,
            },
            Job::Compact { table, major } => Job::Compact {
                table: table.copy()?,
                major: *major,
            },
            Job::Discharge { table } => Job::Discharge {
                table: table.copy()?,
            },
            Job::Split { table, row } => Job::Split {
                table: table.copy()?,
                row: row.copy()?,
            },
            Job::Disable { table } => Job::Disable {
                table: table.copy()?,
            },
            Job::Enable { table } => Job::Enable {
                table: table.copy()?,
            },
            Job::Drop { table } => Job::Drop {
                table: table.copy()?,
            },
            Job::Snapshot { table, snapshot } => Job::Snapshot {
                table: table.copy()?,
                snapshot: snapshot.copy()?,
            },
            Job::DeleteSnapshot { snapshot } => Job::DeleteSnapshot {
                snapshot: snapshot.copy()?,
            },
            Job::Clone { snapshot, table } => Job::Clone {
                snapshot: snapshot.copy()?,
                table: table.copy()?,
            },
            Job::Restore { snapshot } => Job::Restore {
                snapshot: snapshot.copy()?,
            },
            Job::Bulk { table, folder } => Job::Bulk {
                table: table.copy()?,
                folder: folder.copy()?,
            },
        })
    }
}
