//! A journal of allowed entries.

ghost use Rattle.std.specs.Prelude.{ℕ};
ghost use Rattle.core_met_clones.specs.Cloned.{CloneIsMet};

/// There is a journal of allowed entries, from an empty store, that makes a table, flushes a cell, takes a snapshot of the
/// table, clones it to another table, and disables and drops the first, whose file it archives: the list of the clone's region
/// then has one link, to the archived file, with the cell.
pub fn clones_can_be_met()
    ensures { (ttl : ℕ) → CloneIsMet ttl }
{}
