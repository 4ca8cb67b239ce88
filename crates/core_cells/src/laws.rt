//! What the cells of regions and of snapshots keep.

ghost use Rattle.std.specs.Prelude.{ℕ, List};
ghost use Rattle.ns_tree.specs.Tree.{Tree};
ghost use Rattle.core_model.specs.declared.journal.JournalEntry.{JournalEntry};
ghost use Rattle.core_model.specs.declared.opening.Opening.{Opening};
ghost use Rattle.core_model.specs.declared.step.Step.{Step};
ghost use Rattle.core_model.specs.State.{Parts};
ghost use Rattle.core_cells.specs.Cells.{KeepsCells, LeadsToCells};

/// Each allowed step within its limits keeps that the cells of each region are of families of its table, in rows of the region,
/// with numbers not above the region's, and that no two of its files' cells are equal; so of the regions of captures and of complete
/// snapshots. So does each front of a journal of such entries, done or failed, whose opening read a valid tree.
pub fn cells_stay_fit()
    ensures steps { (p : Step) (s : Parts) → KeepsCells p s }
    ensures journals { (o : Opening) (tree : Tree) (es : List JournalEntry) (k : ℕ) → LeadsToCells o tree es k }
{}
