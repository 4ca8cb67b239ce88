//! What holds of the writing calls of a store. A call here is one that nothing refuses.

ghost use Rattle.std.specs.Prelude.{◌≡◌, ℕ, List, None, true, false};
ghost use Rattle.std.specs.FinMap.{get};
ghost use Rattle.ns_tree.specs.Apart.{is_reached, AreApart};
ghost use Rattle.ns_tree.specs.Step.{Write, step, refusal};
ghost use Rattle.ns_tree.specs.Tree.{Tree, HasNoFileBelowAFile};

/// A call leaves no file below a file where there was none.
pub fn calls_keep_files_apart()
    ensures { (call : Write) (tree : Tree) → refusal call tree ≡ None → HasNoFileBelowAFile tree → HasNoFileBelowAFile (step call tree) }
{}

/// A call changes nothing but at the places that it names and below them.
pub fn calls_change_what_they_reach()
    ensures { (call : Write) (tree : Tree) (place : List ℕ) → refusal call tree ≡ None → is_reached call place ≡ false
        → get (step call tree) place ≡ get tree place }
{}

/// A call is refused, for that cause, or not, after a call at places apart from its own as before it, and what both
/// leave is the same in either order.
pub fn calls_apart_commute()
    ensures refused { (call other : Write) (tree : Tree) → AreApart call other → refusal other tree ≡ None
        → refusal call (step other tree) ≡ refusal call tree }
    ensures commute { (call other : Write) (tree : Tree) → AreApart call other → refusal call tree ≡ None → refusal other tree ≡ None
        → step call (step other tree) ≡ step other (step call tree) }
{}
