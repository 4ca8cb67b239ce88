//! What happens to the plain machine.

use crate::{Actor, Hold, Job, RegionKey};
use hb_cell::Cell;
use hb_names::{Encoded, SnapName, TableName};
use hb_records::{RegionInfo, TableSchema};
use hb_wire::Items;

/// What happens to the plain machine. Every other entry of a journal leaves it as it is.
#[derive(Debug, Drop)]
pub enum Event {
    Put {
        region: RegionKey,
        cell: Cell,
    },
    /// The region's sequence number goes up by one, for a file that is to be loaded.
    Draw(RegionKey),
    Freeze(RegionKey),
    Flush(RegionKey),
    /// A major compaction of the region begins.
    MajorStart {
        actor: Actor,
        region: RegionKey,
    },
    Major {
        actor: Actor,
        region: RegionKey,
    },
    Bulk {
        region: RegionKey,
        cells: Items<Cell>,
    },
    Capture {
        actor: Actor,
        region: RegionKey,
    },
    Complete(Actor),
    Delete(SnapName),
    Create {
        schema: TableSchema,
        regions: Items<RegionInfo>,
    },
    Enable(TableName),
    Disable(TableName),
    Drop(TableName),
    Split {
        table: TableName,
        parent: Encoded,
        low: RegionInfo,
        high: RegionInfo,
    },
    Clone {
        snapshot: SnapName,
        table: TableName,
        regions: Items<RegionInfo>,
    },
    Restore {
        snapshot: SnapName,
        regions: Items<RegionInfo>,
    },
    Remove {
        table: TableName,
        regions: Items<Encoded>,
    },
    /// The actor joins with its job and holds; without a job it leaves.
    At {
        actor: Actor,
        job: Option<Job>,
        holds: Items<Hold>,
    },
    /// The program stops.
    Stop,
}
