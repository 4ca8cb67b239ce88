//! The least row key above one.

ghost use Rattle.std.specs.Prelude.{◌≡◌, ◌≢◌, ◌↔◌, ◌≤◌, ◌<◌, ◌-◌, length, take, slice_index, None, IfOk, IsTrue};
ghost use Rattle.hb_row_text.specs.NextRow.{next_row, IsNext};

use crate::row_text::MAX_ROW;
use hb_wire::{Blob, NoMemory};
use std::alloc::Global;

/// The least row key above `row`, or none where no row key of at most 32,767 bytes is above it.
pub fn next_row(alloc: Global, row: &[u8]) -> Result<Option<Blob>, NoMemory>
    requires { length row.now ≤ MAX_ROW }
    ensures next { IfOk result (λ next. next ≡ next_row MAX_ROW row.now) }
    ensures least { IfOk result (λ next. IsNext MAX_ROW row.now next) }
{
    if row.len() == MAX_ROW {
        return next_as_long(alloc, row);
    }
    let mut next = Blob::copy_of(alloc, row)?;
    next.add(&[0])?;
    Ok(Some(next))
}

/// Whether a row key of at most 32,767 bytes is above `row`. It takes no memory.
pub fn has_next_row(row: &[u8]) -> bool
    requires { length row.now ≤ MAX_ROW }
    ensures { IsTrue result ↔ (next_row MAX_ROW row.now ≢ None) }
{
    if row.len() < MAX_ROW {
        return true;
    }
    kept_of(row) > 0
}

/// How many bytes the least row key above `row` has among those that are no longer, of which the last is one
/// higher than in `row`; 0 where there is none.
fn kept_of(row: &[u8]) -> usize
    ensures within { result ≤ length row.now }
    ensures same { next_row (length row.now) row.now ≡ next_row result (take result row.now) }
    ensures last { 0 < result → slice_index row.now (result - 1) < 255 }
{
    let mut kept = row.len();
    while kept > 0 && row[kept - 1] == 255 {
        kept -= 1;
    }
    kept
}

/// The least row key above `row` among those that are no longer.
fn next_as_long(alloc: Global, row: &[u8]) -> Result<Option<Blob>, NoMemory>
    ensures { IfOk result (λ next. next ≡ next_row (length row.now) row.now) }
{
    let kept = kept_of(row);
    if kept == 0 {
        return Ok(None);
    }
    let mut next = Blob::copy_of(alloc, &row[..kept - 1])?;
    next.add(&[row[kept - 1] + 1])?;
    Ok(Some(next))
}
