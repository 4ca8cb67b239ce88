//! What is read of a plain state.

ghost use Rattle.std.specs.Prelude.{◌≡◌, IfOk, option_copied};
ghost use Rattle.std.specs.FinMap.{get};
ghost use Rattle.plain_model.specs.ScanView.{pin_refusal, pinned_region, shown, view_from};
ghost use Rattle.plain_machine.specs.Machine.{state_of};

use crate::plain::Plain;
use crate::replies::unless_enabled;
use hb_cell::Cell;
use hb_names::{SnapName, TableName};
use hb_records::RegionInfo;
use hb_wire::{Blob, Items, NoMemory};
use plain_cells::cells::{from, visible};
use plain_cells::lists::joined;
use plain_events::by_region::{cells_at, value_of};
use plain_model::{PlainSnapshot, PlainTable, RegionKey, Reply};
use plain_tables::regions::region_of;
use plain_tables::snapshots::snapshot_at;
use plain_tables::tables::table_at;

impl Plain {
    /// The table of a name.
    pub fn table(&self, name: &TableName) -> Option<&PlainTable>
        ensures { option_copied result ≡ get (state_of self.now).tables name.now }
    {
        table_at(self.state.tables.as_slice(), name)
    }

    /// The completed snapshot of a name.
    pub fn snapshot(&self, name: &SnapName) -> Option<&PlainSnapshot>
        ensures { option_copied result ≡ get (state_of self.now).snapshots name.now }
    {
        snapshot_at(&self.snapshots, name)
    }

    /// A region's last sequence number.
    pub fn number(&self, region: &RegionKey) -> u64
        ensures { result ≡ (state_of self.now).seq region.now }
    {
        *value_of(self.state.seq.as_slice(), region, &0)
    }

    /// Why a scan can't pin a region of the table.
    pub fn pin_refusal(&self, table: &TableName) -> Option<Reply>
        ensures { result ≡ pin_refusal (state_of self.now) table.now }
    {
        unless_enabled(self, table)
    }

    /// The open region that holds a row, which a scan pins that has come to it.
    pub fn pinned_region(&self, table: &TableName, row: &Blob) -> Option<&RegionInfo>
        ensures { option_copied result ≡ pinned_region (state_of self.now) table.now row.now }
    {
        match self.table(table) {
            Some(found) => region_of(found.regions.as_slice(), row),
            None => None,
        }
    }

    /// What a read of a region shows.
    pub fn shown(&self, region: &RegionKey) -> Result<Items<Cell>, NoMemory>
        ensures { IfOk result (λ cells. cells ≡ shown (state_of self.now) region.now) }
    {
        let stable = cells_at(self.state.stable.as_slice(), region);
        let mem = cells_at(self.state.mem.as_slice(), region);
        let cells = joined(joined(Items::new(self.alloc), stable)?, mem)?;
        match self.table(&region.table) {
            Some(found) => visible(
                self.alloc,
                found.schema.families.as_slice(),
                cells.as_slice(),
            ),
            None => visible(self.alloc, &[], cells.as_slice()),
        }
    }

    /// What a scan that has come to a row sees of the region that holds it.
    pub fn view_from(&self, row: &Blob, region: &RegionKey) -> Result<Items<Cell>, NoMemory>
        ensures { IfOk result (λ cells. cells ≡ view_from (state_of self.now) row.now region.now) }
    {
        let cells = self.shown(region)?;
        from(self.alloc, row, cells.as_slice())
    }
}
