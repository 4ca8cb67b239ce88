//! What the tree of a store gives back after a stop.

ghost use Rattle.std.specs.Prelude.{ℕ, List};
ghost use Rattle.ns_tree.specs.Tree.{Tree};
ghost use Rattle.plain_model.specs.Plain.{Plain};
ghost use Rattle.core_model.specs.declared.journal.JournalEntry.{JournalEntry};
ghost use Rattle.core_model.specs.declared.opening.Opening.{Opening};
ghost use Rattle.core_model.specs.State.{Parts};
ghost use Rattle.core_recovers.specs.Recovers.{RecoversOne, RecoversStopped, RecoversAfter};

/// What a tree gives back is one plain state: its tables, the cells and numbers of each region, and its snapshots, with
/// nothing unflushed and nobody at work.
pub fn trees_recover_one_state()
    ensures { (tree : Tree) (p q : Plain) → RecoversOne tree p q }
{}

/// Whatever entries a journal has, and whatever failed in it: the tree that it leaves gives back what a stop leaves of the
/// state that it leads to; where an operation failed, each of the two trees does, of its own state.
pub fn trees_recover_what_stops_leave()
    ensures states { (tree : Tree) (s : Parts) → RecoversStopped tree s }
    ensures journals { (o : Opening) (tree : Tree) (es : List JournalEntry) (k : ℕ) → RecoversAfter o tree es k }
{}
