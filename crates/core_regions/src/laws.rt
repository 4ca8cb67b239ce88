//! What the regions of tables and of snapshots keep.

ghost use Rattle.std.specs.Prelude.{ℕ, List};
ghost use Rattle.ns_tree.specs.Tree.{Tree};
ghost use Rattle.core_model.specs.declared.journal.JournalEntry.{JournalEntry};
ghost use Rattle.core_model.specs.declared.opening.Opening.{Opening};
ghost use Rattle.core_model.specs.declared.step.Step.{Step};
ghost use Rattle.core_model.specs.State.{Parts};
ghost use Rattle.core_regions.specs.Cover.{KeepsCovered, LeadsToCovered};

/// Each allowed step within its limits keeps that the open regions of each table, and the regions of each complete snapshot, cover
/// all rows without gap or overlap, that the regions of a table have different encoded names, and that families fit. So does each
/// front of a journal of such entries, done or failed, whose opening read a valid tree.
pub fn regions_stay_fit()
    ensures steps { (p : Step) (s : Parts) → KeepsCovered p s }
    ensures journals { (o : Opening) (tree : Tree) (es : List JournalEntry) (k : ℕ) → LeadsToCovered o tree es k }
{}
