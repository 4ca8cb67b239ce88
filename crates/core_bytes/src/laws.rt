//! What holds of the bytes of files after each front of a journal of allowed entries.

ghost use Rattle.std.specs.Prelude.{ℕ, List};
ghost use Rattle.core_model.specs.declared.journal.JournalEntry.{JournalEntry};
ghost use Rattle.core_model.specs.declared.opening.Opening.{Opening};
ghost use Rattle.core_model.specs.declared.step.Step.{Step};
ghost use Rattle.core_model.specs.State.{Parts};
ghost use Rattle.core_bytes.specs.Laws.{KeepsWritten, LeadsToWritten, BeginsWritten, KeepsSizes};

/// Where each step writes a file of its recipe, of its entry or of what its actor captured, and a staged file that is moved
/// whole is an HFile of what was found in it: the file at a base's place is an HFile of the base's cells, a temporary file is
/// a file of its recipe (an HFile, a store list, or a region set), the file of a half is a reference, and the files of a
/// complete snapshot are its description and its manifest; the newest lists and sets are what their files say, and the plain
/// tables are those of the sets. It holds in each state, with the operations that failed done or not.
pub fn files_have_what_they_were_written_of()
    ensures steps { (p : Step) (s : Parts) → KeepsWritten p s }
    ensures journals { (o : Opening) (es : List JournalEntry) (k : ℕ) → LeadsToWritten o es k }
    ensures bare { (epoch ttl : ℕ) → BeginsWritten epoch ttl }
{}

/// The file at a base's place has the size that is known of the base, whatever its bytes are.
pub fn files_have_their_sizes()
    ensures { (p : Step) (s : Parts) → KeepsSizes p s }
{}
