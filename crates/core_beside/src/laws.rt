//! What the entries of regions keep.

ghost use Rattle.std.specs.Prelude.{ℕ, List};
ghost use Rattle.ns_tree.specs.Tree.{Tree};
ghost use Rattle.core_model.specs.declared.journal.JournalEntry.{JournalEntry};
ghost use Rattle.core_model.specs.declared.opening.Opening.{Opening};
ghost use Rattle.core_model.specs.declared.step.Step.{Step};
ghost use Rattle.core_model.specs.State.{Parts};
ghost use Rattle.core_beside.specs.Apart.{KeepsBeside, LeadsToBeside};

/// Each allowed step keeps that the entries of each list of a region in a newest set, of each region of a complete snapshot and
/// of each capture may stand beside each other: no two have one base, but for a half beside an entry that is none, and for halves
/// of different parents. So each front of a journal of allowed entries does, done or failed, whose opening read a valid tree.
pub fn entries_stay_beside()
    ensures steps { (p : Step) (s : Parts) → KeepsBeside p s }
    ensures journals { (o : Opening) (tree : Tree) (es : List JournalEntry) (k : ℕ) → LeadsToBeside o tree es k }
{}
