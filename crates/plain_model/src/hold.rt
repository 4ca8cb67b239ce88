//! What an activity holds while it is at work.

ghost use Rattle.std.specs.Prelude.{◌≡◌};
ghost use Rattle.plain_model.specs.Conflicts.{excludes, conflicts, blocks};

use crate::RegionKey;
use hb_names::{SnapName, TableName};
use hb_wire::{Copied, NoMemory};

/// What an activity holds from its start to its end, against others.
#[derive(Debug, Drop, PartialEq, Eq)]
pub enum Hold {
    /// The whole table.
    Table(TableName),
    /// The region, against all that change it.
    Region(RegionKey),
    /// The region, against other flushes.
    Flush(RegionKey),
    /// The region, against other compactions.
    Compact(RegionKey),
    /// Files are loaded into the table.
    Load(TableName),
    /// A snapshot of this name is taken of the table.
    Take(SnapName, TableName),
    /// The snapshot is read.
    Use(SnapName),
    /// The snapshot is deleted.
    Erase(SnapName),
    /// A cleaner's pass.
    Pass,
}

impl Hold {
    /// Whether two kinds of holds exclude each other, in the order in which each pair is listed.
    fn excludes(&self, other: &Hold) -> bool
        ensures { result ≡ excludes self.now other.now }
    {
        match (self, other) {
            (Hold::Table(t), Hold::Table(u)) => t == u,
            (Hold::Table(t), Hold::Region(k)) => *t == k.table,
            (Hold::Table(t), Hold::Flush(k)) => *t == k.table,
            (Hold::Table(t), Hold::Compact(k)) => *t == k.table,
            (Hold::Table(t), Hold::Load(u)) => t == u,
            (Hold::Table(t), Hold::Take(_, u)) => t == u,
            (Hold::Region(k), Hold::Region(l)) => k == l,
            (Hold::Region(k), Hold::Flush(l)) => k == l,
            (Hold::Region(k), Hold::Compact(l)) => k == l,
            (Hold::Region(k), Hold::Load(t)) => k.table == *t,
            (Hold::Region(k), Hold::Take(_, t)) => k.table == *t,
            (Hold::Flush(k), Hold::Flush(l)) => k == l,
            (Hold::Flush(k), Hold::Take(_, t)) => k.table == *t,
            (Hold::Compact(k), Hold::Compact(l)) => k == l,
            (Hold::Take(s, t), Hold::Take(r, u)) => s == r || t == u,
            (Hold::Erase(s), Hold::Erase(r)) => s == r,
            (Hold::Erase(s), Hold::Use(r)) => s == r,
            (Hold::Erase(s), Hold::Take(r, _)) => s == r,
            (Hold::Pass, Hold::Pass) => true,
            _ => false,
        }
    }

    /// Whether this hold, where it is asked for, conflicts with one that a live actor has.
    pub fn conflicts(&self, live: &Hold) -> bool
        ensures { result ≡ conflicts self.now live.now }
    {
        self.excludes(live)
            || live.excludes(self)
            || matches!((self, live), (Hold::Pass, Hold::Take(..)))
    }

    /// Whether a start that asks for this hold is held by one that a live actor has.
    pub fn blocks(&self, live: &Hold) -> bool
        ensures { result ≡ blocks self.now live.now }
    {
        let answered = match (self, live) {
            (Hold::Pass, Hold::Take(..)) => true,
            (Hold::Erase(snapshot), Hold::Use(used)) => snapshot == used,
            _ => false,
        };
        self.conflicts(live) && !answered
    }
}

impl Copied for Hold {
    fn copy(&self) -> Result<Hold, NoMemory> {
        Ok(match self {
            Hold::Table(table) => Hold::Table(table.copy()?),
            Hold::Region(region) => Hold::Region(region.copy()?),
            Hold::Flush(region) => Hold::Flush(region.copy()?),
            Hold::Compact(region) => Hold::Compact(region.copy()?),
            Hold::Load(table) => Hold::Load(table.copy()?),
            Hold::Take(snapshot, table) => Hold::Take(snapshot.copy()?, table.copy()?),
            Hold::Use(snapshot) => Hold::Use(snapshot.copy()?),
            Hold::Erase(snapshot) => Hold::Erase(snapshot.copy()?),
            Hold::Pass => Hold::Pass,
        })
    }
}
