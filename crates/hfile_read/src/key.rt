//! How index keys lie among cells.
ghost use Rattle.std.specs.Prelude.{◌≡◌, option_map, option_copied, slice_get};
ghost use Rattle.hfile_index.specs.IndexKey.{parts_of_cell, parts_cmp};
ghost use Rattle.hfile_form.specs.Index.{not_below, not_above, cell_before, fits_at};
ghost use Rattle.hfile_read.specs.Views.{key_view};

use hb_cell::Cell;
use hfile_form::DataBlock;
use hfile_index::{IndexEntry, IndexKey};
use std::cmp::Ordering;

/// The parts that the key of a cell has.
fn key_of(cell: &Cell) -> IndexKey<'_>
    ensures { key_view result ≡ parts_of_cell cell.now }
{
    IndexKey {
        row: cell.row.as_slice(),
        family: cell.family.as_slice(),
        qualifier: cell.qualifier.as_slice(),
        ts: cell.ts,
        code: cell.kind.code(),
    }
}

/// The order of two keys: that of cells up to the type code, the greatest timestamp and code first.
fn cmp_keys(a: &IndexKey<'_>, b: &IndexKey<'_>) -> Ordering
    ensures { result ≡ parts_cmp (key_view a.now) (key_view b.now) }
{
    match a.row.cmp(b.row) {
        Ordering::Equal => {}
        by_row => return by_row,
    }
    match a.family.cmp(b.family) {
        Ordering::Equal => {}
        by_family => return by_family,
    }
    match a.qualifier.cmp(b.qualifier) {
        Ordering::Equal => {}
        by_qualifier => return by_qualifier,
    }
    match b.ts.cmp(&a.ts) {
        Ordering::Equal => b.code.cmp(&a.code),
        by_ts => by_ts,
    }
}

/// Whether a key is not below a cell, where there is one.
fn is_not_below(key: &IndexKey<'_>, cell: Option<&Cell>) -> bool
    ensures { result ≡ not_below (key_view key.now) (option_copied cell.entry) }
{
    match cell {
        None => true,
        Some(cell) => cmp_keys(&key_of(cell), key).is_le(),
    }
}

/// Whether there is a cell that a key is not above.
fn is_not_above(key: &IndexKey<'_>, cell: Option<&Cell>) -> bool
    ensures { result ≡ not_above (key_view key.now) (option_copied cell.entry) }
{
    match cell {
        None => false,
        Some(cell) => cmp_keys(key, &key_of(cell)).is_le(),
    }
}

/// The last of so many cells at the front.
fn cell_before(cells: &[Cell], before: usize) -> Option<&Cell>
    ensures { option_copied result ≡ cell_before cells.now before }
{
    if before == 0 {
        None
    } else {
        cells.get(before - 1)
    }
}

/// Whether the key of an entry is not below any cell before a data block, and not above the block's first one.
#[tactic(auto, unfolding(hfile_form::specs::Index::fits_at))]
pub fn fits_at(cells: &[Cell], entry: &IndexEntry, block: &DataBlock) -> bool
    ensures { result ≡ fits_at cells.now entry.now block.now }
{
    let Some(key) = IndexKey::of(entry.key.as_slice()) else {
        return false;
    };
    is_not_below(&key, cell_before(cells, block.before))
        && is_not_above(&key, cells.get(block.before))
}
