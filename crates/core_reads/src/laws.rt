//! What the tree of a store tells, whatever state led to it.

ghost use Rattle.std.specs.Prelude.{ℕ, List};
ghost use Rattle.ns_tree.specs.Tree.{Tree};
ghost use Rattle.plain_model.specs.declared.region_key.RegionKey.{RegionKey};
ghost use Rattle.core_model.specs.declared.journal.JournalEntry.{JournalEntry};
ghost use Rattle.core_model.specs.declared.opening.Opening.{Opening};
ghost use Rattle.core_model.specs.State.{Parts};
ghost use Rattle.core_reads.specs.Laws.{TellsTables, TellsLists, TellsSnapshots, TellsManifests, TellsNext, TellsFailed};

/// Two states that one tree shows have the same tables with their regions, the same newest list of each region, by its
/// lines, and the same complete snapshots: of the same schema, with the same regions, numbers and files. So what the next
/// opening reads of a tree is what the state before it had.
pub fn trees_tell_their_states()
    ensures tables { (tree : Tree) (s o : Parts) (table : List ℕ) → TellsTables tree s o table }
    ensures lists { (tree : Tree) (s o : Parts) (r : RegionKey) → TellsLists tree s o r }
    ensures snapshots { (tree : Tree) (s o : Parts) (name : List ℕ) → TellsSnapshots tree s o name }
    ensures manifests { (tree : Tree) (s o : Parts) (name : List ℕ) → TellsManifests tree s o name }
{}

/// Whatever entries a journal has, and whatever failed in it: an opening of the tree that it left has the tables that the
/// state of the journal had, with the operation that failed not done or done as in the tree.
pub fn openings_begin_where_journals_end()
    ensures now { (o next : Opening) (tree : Tree) (es : List JournalEntry) (k : ℕ) (table : List ℕ) → TellsNext o next tree es k table }
    ensures other { (o next : Opening) (tree : Tree) (es : List JournalEntry) (k : ℕ) (table : List ℕ) → TellsFailed o next tree es k table }
{}
