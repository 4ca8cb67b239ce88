//! What an opening found.

use crate::{RegionFiles, Snapshot};
use hb_cell::Cell;
use hb_names::{Place, SnapName, TableName};
use hb_wire::Items;
use plain_model::RegionKey;
use region_set::RegionSet;

/// All places; the cells of each file that has cells, by its place; the newest lists with their entries, the halves' by
/// their Reference files; the newest sets; and the snapshots.
#[derive(Drop)]
pub struct Found {
    pub places: Items<Place>,
    pub cells: Items<(Place, Items<Cell>)>,
    pub lists: Items<(RegionKey, RegionFiles)>,
    pub sets: Items<(TableName, RegionSet)>,
    pub snapshots: Items<(SnapName, Snapshot)>,
}
