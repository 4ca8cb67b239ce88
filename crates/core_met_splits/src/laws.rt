//! A journal of allowed entries.

ghost use Rattle.std.specs.Prelude.{ℕ};
ghost use Rattle.core_met_splits.specs.Halved.{SplitIsMet};

/// There is a journal of allowed entries, from an empty store, that makes a table, flushes a cell and splits the table's region:
/// each of the two regions then has one half of the file, and the cell is in that which its row belongs to.
pub fn splits_can_be_met()
    ensures { (ttl : ℕ) → SplitIsMet ttl }
{}
