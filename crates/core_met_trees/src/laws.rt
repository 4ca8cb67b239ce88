//! A journal that leaves a valid tree.

ghost use Rattle.std.specs.Prelude.{ℕ};
ghost use Rattle.core_met_trees.specs.Made.{TableIsMade};

/// There is a journal of allowed entries, which write what they say, from an empty store, that makes a table: the tree that it leaves
/// is valid, and the file of the table's set stands in it.
pub fn made_tables_leave_valid_trees()
    ensures { (ttl : ℕ) → TableIsMade ttl }
{}
