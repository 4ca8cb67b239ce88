//! A journal of allowed entries.

ghost use Rattle.std.specs.Prelude.{ℕ};
ghost use Rattle.core_met_loads.specs.Loaded.{LoadIsMet};

/// A store that has two files alone, of two families, that wait to be loaded begins sound, and there is a journal of allowed
/// entries from there that makes a table and loads them: the list of the table's region then has both files, with the cells of
/// both, and neither waits any more.
pub fn loads_can_be_met()
    ensures { (ttl : ℕ) → LoadIsMet ttl }
{}
