//! Which markers hide which puts.
ghost use Rattle.std.specs.Prelude.{◌≡◌};
ghost use Rattle.hb_cell.specs.Hiding.{same_family, same_column, hides};

use crate::{Cell, Kind};

/// Whether two cells are of one row and family.
fn is_same_family(a: &Cell, b: &Cell) -> bool
    ensures { result ≡ same_family a.now b.now }
{
    a.row == b.row && a.family == b.family
}

/// Whether two cells are of one row, family and qualifier.
fn is_same_column(a: &Cell, b: &Cell) -> bool
    ensures { result ≡ same_column a.now b.now }
{
    is_same_family(a, b) && a.qualifier == b.qualifier
}

/// Whether a cell, taken for a put, is hidden by another, which hides only where it is a marker: a Delete hides the
/// puts of its column with its timestamp, a DeleteColumn those of its column with timestamps not above its own, a
/// DeleteFamily those of its row and family with timestamps not above its own. The sequence numbers don't matter. It
/// takes no memory.
///
/// Source: HBase Reference Guide, Deletes.
pub fn hidden_by(put: &Cell, marker: &Cell) -> bool
    ensures { result ≡ hides marker.now put.now }
{
    match marker.kind {
        Kind::Put => false,
        Kind::Delete => is_same_column(marker, put) && put.ts == marker.ts,
        Kind::DeleteColumn => is_same_column(marker, put) && put.ts <= marker.ts,
        Kind::DeleteFamily => is_same_family(marker, put) && put.ts <= marker.ts,
    }
}
