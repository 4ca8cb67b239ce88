//! What holds of each operation of the core on a store.

ghost use Rattle.std.specs.Prelude.{◌≡◌, true, false};
ghost use Rattle.ns_tree.specs.Places.{is_below};
ghost use Rattle.ns_tree.specs.Tree.{Tree};
ghost use Rattle.core_model.specs.Disk.{Disk, Op, disk_after, is_regular};
ghost use Rattle.core_model.specs.Site.{Site, site_text};
ghost use Rattle.core_sites.specs.Calls.{call_of, tree_after, IsAccepted};
ghost use Rattle.core_sites.specs.Shows.{CanDo, IsSpelledSite, Shows};

/// Sites whose names are in their grammars are regular, regular sites with one place are the same site, and no site lies
/// below another.
pub fn sites_stand_apart()
    ensures regular { (p : Site) → IsSpelledSite p → is_regular p ≡ true }
    ensures apart { (p q : Site) → is_regular p ≡ true → is_regular q ≡ true → site_text p ≡ site_text q → p ≡ q }
    ensures nested { (p q : Site) → IsSpelledSite p → IsSpelledSite q → is_below (site_text p) (site_text q) ≡ false }
{}

/// Where an operation can be done on what a tree shows, the store does not refuse it.
pub fn operations_are_accepted()
    ensures { (o : Op) (tree : Tree) (disk : Disk) → CanDo o disk → Shows tree disk → IsAccepted (call_of o) tree }
{}

/// It makes of the tree what it makes of the disk: each file created, moved with its directory or alone, touched or deleted.
pub fn operations_show()
    ensures { (o : Op) (tree : Tree) (disk : Disk) → CanDo o disk → Shows tree disk → Shows (tree_after o tree) (disk_after o disk) }
{}
