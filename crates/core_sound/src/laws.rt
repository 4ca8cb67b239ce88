//! What holds of every journal of allowed entries, for every order of steps by any actors.

ghost use Rattle.std.specs.Prelude.{ℕ, List};
ghost use Rattle.hb_layout.specs.declared.base.Base.{Base};
ghost use Rattle.plain_model.specs.declared.hold.Hold.{Hold};
ghost use Rattle.plain_model.specs.declared.who.Actor.{Actor};
ghost use Rattle.core_model.specs.declared.journal.JournalEntry.{JournalEntry};
ghost use Rattle.core_model.specs.declared.opening.Opening.{Opening};
ghost use Rattle.core_model.specs.declared.step.Step.{Step};
ghost use Rattle.core_model.specs.State.{Parts};
ghost use Rattle.core_sound.specs.Laws.{KeepsSound, LeadsToSound, BeginsSound, HasNamedPlace, DeletesUnnamed, StaysUnnamed, StaysUnnamedIn, HoldsStandApart};

/// Each allowed step keeps what is sound, so each front of a journal of allowed entries leads to a sound state, whatever
/// operations of the store failed in it, done or not. A store without files begins sound.
pub fn steps_keep_what_is_sound()
    ensures steps { (p : Step) (s : Parts) → KeepsSound p s }
    ensures journals { (o : Opening) (es : List JournalEntry) (k : ℕ) → LeadsToSound o es k }
    ensures bare { (epoch ttl : ℕ) → BeginsSound epoch ttl }
{}

/// A base that is named has a place, live or archived.
pub fn named_bases_have_places()
    ensures { (s : Parts) (b : Base) → HasNamedPlace s b }
{}

/// The base of a deletion is not named. The guard of a deletion knows this from the barrier of its pass alone: the
/// manifests that were read, back references, and the bases that gained a name since the pass began.
pub fn deletions_are_of_unnamed_bases()
    ensures { (actor : Actor) (b : Base) (s : Parts) → DeletesUnnamed actor b s }
{}

/// A base that is archived and not named is never named again, as long as it stays archived.
pub fn unnamed_bases_stay_unnamed()
    ensures step { (p : Step) (s : Parts) (b : Base) → StaysUnnamed p s b }
    ensures journal { (o : Opening) (es more : List JournalEntry) (b : Base) → StaysUnnamedIn o es more b }
{}

/// No two live actors have holds that exclude each other.
pub fn holds_stand_apart()
    ensures { (s : Parts) (a b : ℕ) (h k : Hold) → HoldsStandApart s a b h k }
{}
