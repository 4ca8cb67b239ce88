//! A cell, its limits and its order.
ghost use Rattle.std.specs.Prelude.{◌≡◌, ◌↔◌, IsTrue, Some, refl};
ghost use Rattle.std.specs.Ordering.{eq_by_cmp};
ghost use Rattle.hb_cell.specs.Limits.{IsCell};
ghost use Rattle.hb_cell.specs.Order.{column_cmp, version_cmp, key_cmp};
ghost use Rattle.std.specs.Cmp.{partial_equiv_from_equiv, partial_order_from_total};
ghost use Rattle.std.proofs.lemmas.Cmp.{eq_by_cmp_equiv};
ghost use Rattle.hb_cell.specs.OrderLaws.{key_cmp_total};

use crate::Kind;
use hb_wire::{Blob, Copied, NoMemory};
use std::cmp::Ordering;

/// One value or marker of a table.
#[derive(Debug, Drop)]
pub struct Cell {
    /// 1 to 32,767 bytes.
    pub row: Blob,
    /// 1 to 127 bytes.
    pub family: Blob,
    /// Up to 32,767 bytes.
    pub qualifier: Blob,
    /// The timestamp in milliseconds, below 2 ^ 63.
    pub ts: u64,
    pub kind: Kind,
    /// The sequence number, below 2 ^ 63.
    pub seq: u64,
    /// Up to 10,485,760 bytes.
    pub value: Blob,
}

/// The greatest length of a row and of a qualifier.
pub const MAX_ROW: usize = 32_767;
/// The greatest length of a family.
pub const MAX_FAMILY: usize = 127;
/// The greatest length of a value.
pub const MAX_VALUE: usize = 10_485_760;
/// The least number that is no timestamp and no sequence number.
pub const NUMBER_LIMIT: u64 = 1 << 63;

impl Cell {
    /// Whether each part is within its limit.
    pub fn is_within_limits(&self) -> bool
        ensures { IsTrue result ↔ IsCell self.now }
    {
        let (row, family) = (self.row.len(), self.family.len());
        1 <= row
            && row <= MAX_ROW
            && 1 <= family
            && family <= MAX_FAMILY
            && self.qualifier.len() <= MAX_ROW
            && self.value.len() <= MAX_VALUE
            && self.ts < NUMBER_LIMIT
            && self.seq < NUMBER_LIMIT
    }
}

impl Copied for Cell {
    fn copy(&self) -> Result<Cell, NoMemory> {
        Ok(Cell {
            row: self.row.copy()?,
            family: self.family.copy()?,
            qualifier: self.qualifier.copy()?,
            ts: self.ts,
            kind: self.kind,
            seq: self.seq,
            value: self.value.copy()?,
        })
    }
}

// Cells are equal and are ordered by all their fields.
impl PartialEq for Cell {
    ghost eq = { eq_by_cmp key_cmp };

    ghost laws = { partial_equiv_from_equiv (eq_by_cmp_equiv key_cmp_total) };

    fn eq(&self, other: &Cell) -> bool {
        cmp_key(self, other).is_eq()
    }
}

impl Eq for Cell {
    ghost laws = { eq_by_cmp_equiv key_cmp_total };
}

impl PartialOrd for Cell {
    ghost partial_cmp = { λ a b. Some (key_cmp a b) };

    ghost laws = { partial_order_from_total key_cmp_total };

    fn partial_cmp(&self, other: &Cell) -> Option<Ordering> {
        Some(cmp_key(self, other))
    }
}

impl Ord for Cell {
    ghost cmp = { key_cmp };

    ghost total = { key_cmp_total };

    ghost matches_partial_cmp = { λ a b. refl };

    ghost matches_eq = { λ a b. refl };

    fn cmp(&self, other: &Cell) -> Ordering {
        cmp_key(self, other)
    }
}

/// The order of two cells' columns: row, family, qualifier.
fn cmp_column(a: &Cell, b: &Cell) -> Ordering
    ensures { result ≡ column_cmp a.now b.now }
{
    match a.row.cmp(&b.row) {
        Ordering::Equal => match a.family.cmp(&b.family) {
            Ordering::Equal => a.qualifier.cmp(&b.qualifier),
            by_family => by_family,
        },
        by_row => by_row,
    }
}

/// The order of two cells of one column: timestamp, type code, sequence number, the greatest first.
fn cmp_version(a: &Cell, b: &Cell) -> Ordering
    ensures { result ≡ version_cmp a.now b.now }
{
    match b.ts.cmp(&a.ts) {
        Ordering::Equal => match b.kind.code().cmp(&a.kind.code()) {
            Ordering::Equal => b.seq.cmp(&a.seq),
            by_code => by_code,
        },
        by_ts => by_ts,
    }
}

/// The order of two cells by all their parts.
fn cmp_parts(a: &Cell, b: &Cell) -> Ordering
    ensures { result ≡ key_cmp a.now b.now }
{
    match cmp_column(a, b) {
        Ordering::Equal => match cmp_version(a, b) {
            Ordering::Equal => a.value.cmp(&b.value),
            by_version => by_version,
        },
        by_column => by_column,
    }
}

/// The order of cells, in which a file has them: row, family and qualifier ascending as bytes; then timestamp, type
/// code and sequence number descending; then the value ascending. It takes no memory.
///
/// It is total, and two cells are equal under it only where all their fields are. Source: HBase
/// `CellComparatorImpl`, which leaves the value out.
pub fn cmp_key(a: &Cell, b: &Cell) -> Ordering
    ensures exact { result ≡ key_cmp a.now b.now }
    ensures equal { (result ≡ Ordering.Equal) ↔ (a.now ≡ b.now) }
{
    cmp_parts(a, b)
}
