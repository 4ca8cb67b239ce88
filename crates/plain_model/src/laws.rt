//! What holds of the plain machine.

ghost use Rattle.std.specs.Prelude.{ℕ, Bool, List};
ghost use Rattle.hb_cell.specs.declared.cell.Cell.{Cell};
ghost use Rattle.hb_records.specs.declared.region_info.RegionInfo.{RegionInfo};
ghost use Rattle.plain_model.specs.declared.event.Event.{Event};
ghost use Rattle.plain_model.specs.declared.hold.Hold.{Hold};
ghost use Rattle.plain_model.specs.declared.region_key.RegionKey.{RegionKey};
ghost use Rattle.plain_model.specs.Plain.{Plain};
ghost use Rattle.plain_model.specs.Laws.{LeavesOthers, LeavesTables, LeavesSnapshots, LeavesLive, HasOneRegion, SplitsRows, SameStay, SameCompacted, StopsAlike, IsSymmetric, WaitsForTake};

/// An event leaves alone the cells and numbers of the regions that it doesn't name, and each part of the state but
/// those that it changes. So a copy that is captured stays as it was taken.
pub fn leaves_alone()
    ensures regions { (e : Event) (s : Plain) (k : RegionKey) → LeavesOthers e s k }
    ensures tables { (e : Event) (s : Plain) → LeavesTables e s }
    ensures snapshots { (e : Event) (s : Plain) → LeavesSnapshots e s }
    ensures live { (e : Event) (s : Plain) → LeavesLive e s }
{}

/// Each row has one open region where the regions cover all rows, and a split parts the rows of a region at its row.
pub fn rows_have_regions()
    ensures one { (regions : List (RegionInfo × Bool)) (row : List ℕ) → HasOneRegion regions row }
    ensures split { (whole low high : RegionInfo) (row : List ℕ) → SplitsRows whole low high row }
{}

/// Lists with the same cells stay so under what events make of lists of cells.
pub fn same_cells_stay()
    ensures lists { (row : List ℕ) (xs ys us vs : List Cell) → SameStay row xs ys us vs }
    ensures compacted { (families : List (List ℕ × ℕ)) (n m : ℕ) (xs ys : List Cell) → SameCompacted families n m xs ys }
{}

/// A stop loses unflushed cells, numbers that were drawn, and activities: it leaves what it left before these events.
pub fn stop_loses()
    ensures { (e : Event) (s : Plain) → StopsAlike e s }
{}

/// Conflicts are symmetric but between a pass that is asked for and a snapshot that is being taken.
pub fn conflicts_are_symmetric()
    ensures symmetric { (a b : Hold) → IsSymmetric a b }
    ensures waiting { (name table : List ℕ) → WaitsForTake name table }
{}
