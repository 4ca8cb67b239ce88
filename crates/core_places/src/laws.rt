//! What the places of files are, beside what stands where.

ghost use Rattle.plain_model.specs.declared.region_key.RegionKey.{RegionKey};
ghost use Rattle.core_model.specs.Disk.{Disk, Op};
ghost use Rattle.core_places.specs.Places.{Places};
ghost use Rattle.core_places.specs.Laws.{KeepsPlaces, ShowsPlaces, TellsRegion};
ghost use Rattle.ns_tree.specs.Tree.{Tree};

/// An operation on files makes of the places what it makes of the files. The places of what a tree shows are those of the
/// tree's files. Those below a region's directories are the places of its files: of its store files, links and references,
/// in use or archived, of its lists and of its back references.
pub fn places_are_those_of_files()
    ensures kept { (o : Op) (disk : Disk) (places : Places) → KeepsPlaces o disk places }
    ensures shown { (tree : Tree) (disk : Disk) (places : Places) → ShowsPlaces tree disk places }
    ensures region { (r : RegionKey) (disk : Disk) (places : Places) → TellsRegion r disk places }
{}
