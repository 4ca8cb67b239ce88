//! What the trees of journals keep.

ghost use Rattle.std.specs.Prelude.{ℕ, List};
ghost use Rattle.ns_tree.specs.Tree.{Tree};
ghost use Rattle.core_model.specs.declared.journal.JournalEntry.{JournalEntry};
ghost use Rattle.core_model.specs.declared.opening.Opening.{Opening};
ghost use Rattle.core_model.specs.declared.step.Step.{Step};
ghost use Rattle.core_model.specs.State.{Parts};
ghost use Rattle.core_complete.specs.Placed.{KeepsPlaced, StaysComplete};

/// Each allowed step keeps that files may stand where they stand: the epochs in their names are within their limit, and links,
/// back references and files of the epoch have no bytes. So a journal of allowed entries that write what they say, over a store
/// whose opening read a valid tree, leaves trees that obey each rule of a valid tree but those on what fits together: with the
/// operations that failed done or not.
pub fn trees_stay_complete()
    ensures steps { (p : Step) (s : Parts) → KeepsPlaced p s }
    ensures journals { (o : Opening) (tree : Tree) (es : List JournalEntry) (k : ℕ) → StaysComplete o tree es k }
{}
