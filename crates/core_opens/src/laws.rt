//! Openings and lives.

ghost use Rattle.std.specs.Prelude.{ℕ, List};
ghost use Rattle.ns_tree.specs.Tree.{Tree};
ghost use Rattle.core_model.specs.declared.journal.Journal.{Journal};
ghost use Rattle.core_model.specs.declared.opening.Opening.{Opening};
ghost use Rattle.core_opens.specs.Begins.{BeginsBare, BeginsValid, LivesGoOn};
ghost use Rattle.core_opens.specs.Faults.{Fault};
ghost use Rattle.core_opens.specs.Laws.{HasNoFault};

/// An opening that read a valid tree, in which no work in progress is left, begins with a sound state, whose files are the
/// newest and what they were written of, have what the plain machine has, and whose halves say their rows; and its plain state
/// is what the tree gives back. A store without files is valid, and its opening begins so.
pub fn valid_trees_begin_well()
    ensures trees { (o : Opening) (tree : Tree) → BeginsValid o tree }
    ensures bare { (epoch ttl : ℕ) → BeginsBare epoch ttl }
{}

/// In a life, journals over one store whose openings read valid trees and give back what the store had, each opening begins
/// with what a stop leaves of the state before it: with an operation that failed last not done, or done.
pub fn lives_go_on()
    ensures { (js : List (Journal × Tree)) → LivesGoOn js }
{}

/// No place of a valid tree has a fault: not of the layout, of a base with two places, of a snapshot with one file, of a
/// grammar, of a file or a back reference that is missed, nor of parts that do not fit.
pub fn valid_trees_have_no_fault()
    ensures { (tree : Tree) (place : List ℕ) (fault : Fault) → HasNoFault tree place fault }
{}
