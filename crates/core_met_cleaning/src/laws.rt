//! A journal of allowed entries.

ghost use Rattle.std.specs.Prelude.{ℕ};
ghost use Rattle.core_met_cleaning.specs.Cleaned.{DeletionIsMet};

/// There is a journal of allowed entries, from an empty store, that makes a table, flushes a cell, compacts the table and
/// archives the file, which a cleaner's pass then deletes: the file stands nowhere, and the table's region has its cell in
/// another file.
pub fn deletions_can_be_met()
    ensures { (ttl : ℕ) → DeletionIsMet ttl }
{}
