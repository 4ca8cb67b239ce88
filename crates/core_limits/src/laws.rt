//! How many regions tables have, and how many families.

ghost use Rattle.std.specs.Prelude.{List};
ghost use Rattle.ns_tree.specs.Tree.{Tree};
ghost use Rattle.core_model.specs.declared.journal.JournalEntry.{JournalEntry};
ghost use Rattle.core_model.specs.declared.opening.Opening.{Opening};
ghost use Rattle.core_model.specs.declared.step.Step.{Step};
ghost use Rattle.core_model.specs.State.{Parts};
ghost use Rattle.core_limits.specs.Limits.{KeepsLimited, LeadsToLimits};

/// Each allowed step of a limited state is within its limits, and leaves a limited state: a set that is committed has at most 1,000
/// regions, its open ones with ids below 2 ^ 63, and a table that is made has 1 to 16 families, which differ. So are all entries of a
/// journal whose opening read a valid tree.
pub fn regions_stay_within_limits()
    ensures steps { (p : Step) (s : Parts) → KeepsLimited p s }
    ensures journals { (o : Opening) (tree : Tree) (es : List JournalEntry) → LeadsToLimits o tree es }
{}
