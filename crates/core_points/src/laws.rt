//! What the files of halves say after each front of a journal of allowed entries.

ghost use Rattle.std.specs.Prelude.{ℕ, List};
ghost use Rattle.core_model.specs.declared.journal.JournalEntry.{JournalEntry};
ghost use Rattle.core_model.specs.declared.opening.Opening.{Opening};
ghost use Rattle.core_model.specs.declared.step.Step.{Step};
ghost use Rattle.core_model.specs.State.{Parts};
ghost use Rattle.core_points.specs.Laws.{KeepsPointed, LeadsToPointed, BeginsPointed};

/// Where each step writes a file of what it says: the file of a listed half says its row and its side, each file in the
/// directory of a region that is being built is that of an entry planned for it, and the entries of a list, of a capture and of
/// a region in a snapshot are that region's, with one side for the halves of one base and parent. It holds in each state, with
/// the operations that failed done or not.
pub fn halves_say_their_rows()
    ensures steps { (p : Step) (s : Parts) → KeepsPointed p s }
    ensures journals { (o : Opening) (es : List JournalEntry) (k : ℕ) → LeadsToPointed o es k }
    ensures bare { (epoch ttl : ℕ) → BeginsPointed epoch ttl }
{}
