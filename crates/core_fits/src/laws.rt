//! What the trees of journals are.

ghost use Rattle.std.specs.Prelude.{ℕ, List};
ghost use Rattle.ns_tree.specs.Tree.{Tree};
ghost use Rattle.core_model.specs.declared.journal.JournalEntry.{JournalEntry};
ghost use Rattle.core_model.specs.declared.opening.Opening.{Opening};
ghost use Rattle.core_fits.specs.Fitting.{StaysValid};

/// A journal of allowed entries that write what they say, over a store whose opening read a valid tree with an epoch within its limit,
/// leaves valid trees after each front: with the operations that failed done or not. So the next opening reads a valid tree.
pub fn trees_stay_valid()
    ensures { (o : Opening) (tree : Tree) (es : List JournalEntry) (k : ℕ) → StaysValid o tree es k }
{}
