//! The rows of a script: what happens to the machine, what is asked of it, and what it must answer.

use hb_cell::Kind;

/// A region as a script names it. One without an upper bound ends at no bytes.
#[derive(Clone, Copy)]
pub(crate) struct Region {
    pub(crate) table: &'static str,
    pub(crate) id: u64,
    pub(crate) start: &'static str,
    pub(crate) end: &'static str,
}

/// A cell of a file that is loaded: its row, family, timestamp, value and number. Its qualifier is `q`.
pub(crate) type Loaded = (&'static str, &'static str, u64, &'static str, u64);

/// What happens to a region.
#[derive(Clone, Copy)]
pub(crate) enum InRegion {
    /// A value is put: its row, family, qualifier, timestamp and value.
    Puts(&'static str, &'static str, &'static str, u64, &'static str),
    /// A marker is put: its row, family, qualifier, timestamp and kind.
    Marks(&'static str, &'static str, &'static str, u64, Kind),
    Draws,
    Freezes,
    Flushes,
    Loads(&'static [Loaded]),
}

/// What happens to a table.
#[derive(Clone, Copy)]
pub(crate) enum ToTable {
    /// It is made, of these families with their versions, and these regions.
    Creates(&'static [(&'static str, u32)], &'static [Region]),
    /// It is made, of the family `f` and so many regions.
    CreatesMany(u64),
    Enables,
    Disables,
    Drops,
    /// The first region is split into the other two.
    Splits(Region, Region, Region),
    /// It is made of a snapshot.
    Clones(&'static str, &'static [Region]),
    /// It is made again of its snapshot.
    Restores(&'static str, &'static [Region]),
    /// These regions leave its set.
    Removes(&'static [Region]),
}

/// What an activity does.
#[derive(Clone, Copy)]
pub(crate) enum ByActor {
    /// It joins, with its job and holds.
    Starts(Asked, &'static [Held]),
    Captures(Region),
    Completes,
    /// Its major compaction of the region begins.
    Begins(Region),
    Compacts(Region),
    Ends,
}

/// What is asked.
#[derive(Clone, Copy)]
pub(crate) enum Asked {
    Of(&'static str, OfTable),
    ListSnapshots,
    DeleteSnapshot(&'static str),
    /// A table of this second name is made of the snapshot.
    CloneSnapshot(&'static str, &'static str),
    RestoreSnapshot(&'static str),
    Janitor,
    Clean,
}

/// What is asked of a table.
#[derive(Clone, Copy)]
pub(crate) enum OfTable {
    /// That it is made, of these families and with these splits.
    Create(&'static [&'static str], &'static [&'static str]),
    /// That a cell of this family is put.
    Put(&'static str),
    Scan,
    Flush,
    Compact,
    MajorCompact,
    Discharge,
    Split(&'static str),
    Disable,
    Enable,
    Drop,
    Snapshot(&'static str),
    BulkLoad(&'static str),
}

/// What an activity holds.
#[derive(Clone, Copy)]
pub(crate) enum Held {
    Table(&'static str),
    Region(Region),
    Flush(Region),
    Compact(Region),
    Load(&'static str),
    /// A snapshot of this name of this table.
    Take(&'static str, &'static str),
    Use(&'static str),
    Erase(&'static str),
    Pass,
}

/// A row of a script. The texts are what must be answered, as the shell prints it, with `, ` between its lines.
#[derive(Clone, Copy)]
pub(crate) enum Row {
    At(Region, InRegion),
    On(&'static str, ToTable),
    By(u32, ByActor),
    /// A snapshot is deleted.
    Deletes(&'static str),
    Stops,
    /// A job is asked for.
    Ask(Asked, &'static str),
    /// A table is scanned.
    Shows(&'static str, &'static str),
    /// A region's last number, and whether it is the greatest.
    Number(Region, &'static str),
    /// The regions of a table: where each starts and ends, and whether it is split.
    Regions(&'static str, &'static str),
    /// The regions of a snapshot: where each starts and ends, how many cells it has, and its number.
    Copies(&'static str, &'static str),
}

/// A script, with what it shows.
#[derive(Clone, Copy)]
pub(crate) struct Script {
    pub(crate) title: &'static str,
    pub(crate) rows: &'static [Row],
}

/// Events, beside each what a stop right after it leaves of a table, once other events have followed the stop: the rows
/// and values that the table shows, the last numbers of its open regions, whether it is disabled, and all snapshots.
#[derive(Clone, Copy)]
pub(crate) struct Stopped {
    pub(crate) title: &'static str,
    pub(crate) table: &'static str,
    pub(crate) before: &'static [Row],
    pub(crate) rows: &'static [(Row, &'static str)],
    pub(crate) behind: &'static [Row],
}

/// Which of some holds that live actors have are in the way of one that is asked for: `x` those that hold its start, `r`
/// those that a reply of their own answers.
#[derive(Clone, Copy)]
pub(crate) struct Conflicts {
    pub(crate) asked: Held,
    pub(crate) found: &'static str,
}

/// A row that answers otherwise than it must.
#[derive(Drop)]
pub(crate) struct Fault {
    pub(crate) row: usize,
    pub(crate) found: String,
}
