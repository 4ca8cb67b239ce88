//! What the files of the core hold, for every order of steps by any actors.

ghost use Rattle.std.specs.Prelude.{ℕ, List};
ghost use Rattle.hb_cell.specs.declared.cell.Cell.{Cell};
ghost use Rattle.plain_model.specs.declared.region_key.RegionKey.{RegionKey};
ghost use Rattle.plain_model.specs.declared.who.Actor.{Actor};
ghost use Rattle.core_model.specs.declared.entry.Entry.{Entry};
ghost use Rattle.core_model.specs.declared.journal.JournalEntry.{JournalEntry};
ghost use Rattle.core_model.specs.declared.opening.Opening.{Opening};
ghost use Rattle.core_model.specs.declared.region_files.RegionFiles.{RegionFiles};
ghost use Rattle.core_model.specs.declared.snapshot.Snapshot.{Snapshot};
ghost use Rattle.core_model.specs.declared.step.Step.{Step};
ghost use Rattle.core_model.specs.State.{Parts};
ghost use Rattle.core_contents.specs.Laws.{KeepsFaithful, LeadsToFaithful, BeginsFaithful, HasCellsAfter, CompletesCaptures, StaysComplete, StaysCompleteIn, CapturesFlush, JoinsAtOnce, KeepsCells, CompactsVisibly};

/// Each allowed step keeps that the files have what the plain machine has: each region its cells, each capture and each
/// completed snapshot those of its plain copy. So each front of a journal of allowed entries does, done or failed, and a
/// store without files begins so.
pub fn steps_keep_contents()
    ensures steps { (p : Step) (s : Parts) → KeepsFaithful p s }
    ensures journals { (o : Opening) (es : List JournalEntry) (k : ℕ) → LeadsToFaithful o es k }
    ensures bare { (epoch ttl : ℕ) → BeginsFaithful epoch ttl }
    ensures cells { (epoch ttl : ℕ) (es : List JournalEntry) (k : ℕ) (r : RegionKey) → HasCellsAfter epoch ttl es k r }
{}

/// A capture that flushes has, in one step, the region's cells with the flushed ones. A snapshot that is completed has,
/// region by region, the same cells as its captures, and keeps them until it is deleted.
pub fn snapshots_read_their_captures()
    ensures completed { (actor : Actor) (name : List ℕ) (x : Snapshot) (s : Parts) → CompletesCaptures actor name x s }
    ensures flushed { (actor : Actor) (r : RegionKey) (n : ℕ) (name : List ℕ) (l : RegionFiles) (cells : List Cell) (more : List (List ℕ × Entry)) (s : Parts) → CapturesFlush actor r n name l cells more s }
    ensures journal { (o : Opening) (es more : List JournalEntry) (name : List ℕ) (x : Snapshot) → StaysCompleteIn o es more name x }
    ensures kept { (p : Step) (s : Parts) (name : List ℕ) (x : Snapshot) → StaysComplete p s name x }
{}

/// The cells of a bulk group's files join their region in one step.
pub fn groups_join_at_once()
    ensures { (actor : Actor) (r : RegionKey) (n : ℕ) (name : List ℕ) (l : RegionFiles) (cells : List Cell) (more : List (List ℕ × Entry)) (s : Parts) → JoinsAtOnce actor r n name l cells more s }
{}

/// A minor compaction, an archiving, a discharge and a cleaning change no region's cells.
pub fn upkeep_changes_no_cells()
    ensures { (p : Step) (s : Parts) (r : RegionKey) → KeepsCells p s r }
{}

/// A major compaction leaves the visible cells of what it pinned, and all cells that came later.
pub fn major_compactions_leave_visible_cells()
    ensures { (actor : Actor) (r : RegionKey) (n : ℕ) (name : List ℕ) (l : RegionFiles) (cells : List Cell) (more : List (List ℕ × Entry)) (s : Parts) → CompactsVisibly actor r n name l cells more s }
{}
