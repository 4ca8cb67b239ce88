//! What holds of the tree of a store that tells it, after each front of a journal of allowed entries.

ghost use Rattle.std.specs.Prelude.{ℕ, List};
ghost use Rattle.ns_tree.specs.Tree.{Tree};
ghost use Rattle.core_model.specs.declared.journal.JournalEntry.{JournalEntry};
ghost use Rattle.core_model.specs.declared.opening.Opening.{Opening};
ghost use Rattle.core_model.specs.declared.step.Step.{Step};
ghost use Rattle.core_model.specs.State.{Parts};
ghost use Rattle.core_trees.specs.Laws.{AcceptsStep, ShowsStep, KeepsFiled, LeadsToFiled, ShowsJournal, AcceptsJournal, BeginsBare};

/// A store refuses no allowed step: neither one step, nor an entry of a journal whatever failed before it.
pub fn allowed_steps_are_accepted()
    ensures step { (p : Step) (s : Parts) (tree : Tree) → AcceptsStep p s tree }
    ensures journal { (o : Opening) (tree : Tree) (es : List JournalEntry) (e : JournalEntry) (more : List JournalEntry) → AcceptsJournal o tree es e more }
{}

/// An allowed step makes of the tree what it makes of the state, so after each front of a journal of allowed entries the
/// tree is that of the state: with the operations that failed not done, and with them done. A store without files begins so.
pub fn trees_show_their_states()
    ensures step { (p : Step) (s : Parts) (tree : Tree) → ShowsStep p s tree }
    ensures journal { (o : Opening) (tree : Tree) (es : List JournalEntry) (k : ℕ) → ShowsJournal o tree es k }
    ensures bare { (epoch ttl : ℕ) → BeginsBare epoch ttl }
{}

/// No list of a region and no set of a table is newer than the newest that the state has, and the files of a snapshot stand
/// exactly where it is complete: each allowed step keeps that, and so does each front of a journal of allowed entries.
pub fn newest_files_are_known()
    ensures steps { (p : Step) (s : Parts) → KeepsFiled p s }
    ensures journals { (o : Opening) (es : List JournalEntry) (k : ℕ) → LeadsToFiled o es k }
{}
