//! Journals of allowed entries.

ghost use Rattle.std.specs.Prelude.{ℕ};
ghost use Rattle.core_met.specs.Met.{FlushIsMet, SnapshotIsMet};

/// There is a journal of allowed entries, from an empty store, that makes a table, puts a cell and flushes it: the list of
/// the table's region then has one file, with the cell.
pub fn flushes_can_be_met()
    ensures { (ttl : ℕ) → FlushIsMet ttl }
{}

/// There is one that goes on with a snapshot of the table: its complete snapshot has the cell.
pub fn snapshots_can_be_met()
    ensures { (ttl : ℕ) → SnapshotIsMet ttl }
{}
