//! The cells of a region.

ghost use Rattle.std.specs.Prelude.{◌≡◌, ◌∷◌, IfOk, count_by, filter};
ghost use Rattle.hb_cell.specs.Hiding.{hides, same_column};
ghost use Rattle.std.specs.List.{list_any};
ghost use Rattle.cell_sight.specs.Same.{in_place, sorted};
ghost use Rattle.cell_sight.specs.Visible.{firsts, versions_of, is_newer, visible};
ghost use Rattle.plain_model.specs.CellEvents.{under, from, greatest, compacted};
ghost use Rattle.plain_cells.specs.VisibleSteps.{others, is_unhidden_in, is_newest_in};

use crate::lists::{back, front, joined};
use hb_cell::{Cell, Kind, hidden_by};
use hb_names::FamilyName;
use hb_wire::{Blob, Copied, Items, NoMemory};
use std::alloc::{AllocError, Global};

/// The cells of rows below one.
pub fn under(alloc: Global, row: &Blob, cells: &[Cell]) -> Result<Items<Cell>, NoMemory>
    ensures { IfOk result (λ some. some ≡ under row.now cells.now) }
{
    let mut some = Vec::new(alloc);
    for cell in cells {
        if cell.row < *row {
            some.push(cell.copy()?)?;
        }
    }
    Ok(Items::from_vec(some))
}

/// The cells of the other rows.
pub fn from(alloc: Global, row: &Blob, cells: &[Cell]) -> Result<Items<Cell>, NoMemory>
    ensures { IfOk result (λ some. some ≡ from row.now cells.now) }
{
    let mut some = Vec::new(alloc);
    for cell in cells {
        if !(cell.row < *row) {
            some.push(cell.copy()?)?;
        }
    }
    Ok(Items::from_vec(some))
}

/// The greatest of a number and those of the cells.
pub fn greatest(number: u64, cells: &[Cell]) -> u64
    ensures { result ≡ greatest number cells.now }
{
    let mut most = number;
    for cell in cells {
        most = most.max(cell.seq);
    }
    most
}

/// The cells with one more, before the first that isn't below it.
fn in_place(cell: Cell, cells: Items<Cell>) -> Result<Items<Cell>, NoMemory>
    ensures { IfOk result (λ all. all ≡ in_place cell cells) }
{
    let mut all = cells.into_vec();
    let mut at = 0;
    while at < all.len() && cell.cmp(&all[at]).is_gt() {
        at += 1;
    }
    match all.insert(at, cell) {
        Ok(()) => Ok(Items::from_vec(all)),
        Err(_) => Err(AllocError),
    }
}

/// The cells in key order.
fn sorted(alloc: Global, cells: &[Cell]) -> Result<Items<Cell>, NoMemory>
    ensures { IfOk result (λ all. all ≡ sorted cells.now) }
{
    let mut all = Items::new(alloc);
    let mut i = cells.len();
    while i > 0 {
        i -= 1;
        all = in_place(cells[i].copy()?, all)?;
    }
    Ok(all)
}

/// Whether a marker of the list hides a cell.
fn is_hidden(cell: &Cell, cells: &[Cell]) -> bool
    ensures { result ≡ list_any (λ marker. hides marker cell.now) cells.now }
{
    for marker in cells {
        if hidden_by(cell, marker) {
            return true;
        }
    }
    false
}

/// Whether a cell is a put that no marker of the list hides.
#[tactic(auto, unfolding(crate::specs::VisibleSteps::is_unhidden_in))]
fn is_unhidden(cell: &Cell, cells: &[Cell]) -> bool
    ensures { result ≡ is_unhidden_in cells.now cell.now }
{
    cell.kind == Kind::Put && !is_hidden(cell, cells)
}

/// The puts that no marker of a list hides.
fn unhidden(alloc: Global, cells: &[Cell], among: &[Cell]) -> Result<Items<Cell>, NoMemory>
    ensures { IfOk result (λ some. some ≡ filter (is_unhidden_in among.now) cells.now) }
{
    let mut some = Vec::new(alloc);
    for cell in cells {
        if is_unhidden(cell, among) {
            some.push(cell.copy()?)?;
        }
    }
    Ok(Items::from_vec(some))
}

/// Whether two cells are of one row, family and qualifier.
fn is_same_column(a: &Cell, b: &Cell) -> bool
    ensures { result ≡ same_column a.now b.now }
{
    a.row == b.row && a.family == b.family && a.qualifier == b.qualifier
}

/// The cells of other columns or timestamps.
fn others(alloc: Global, first: &Cell, cells: &[Cell]) -> Result<Items<Cell>, NoMemory>
    ensures { IfOk result (λ some. some ≡ others first.now cells.now) }
{
    let mut some = Vec::new(alloc);
    for cell in cells {
        if !(is_same_column(first, cell) && first.ts == cell.ts) {
            some.push(cell.copy()?)?;
        }
    }
    Ok(Items::from_vec(some))
}

/// Of each column and timestamp the first.
fn firsts(alloc: Global, cells: &[Cell]) -> Result<Items<Cell>, NoMemory>
    ensures { IfOk result (λ some. some ≡ firsts cells.now) }
{
    let mut some = Items::new(alloc);
    let mut i = cells.len();
    while i > 0 {
        i -= 1;
        let rest = others(alloc, &cells[i], some.as_slice())?;
        some = led(alloc, cells[i].copy()?, rest.as_slice())?;
    }
    Ok(some)
}

/// A list that begins with a cell.
fn led(alloc: Global, cell: Cell, cells: &[Cell]) -> Result<Items<Cell>, NoMemory>
    ensures { IfOk result (λ all. all ≡ cell ∷ cells.now) }
{
    let first = vec![in alloc; cell]?;
    joined(Items::from_vec(first), cells)
}

/// How many versions a family shows.
fn versions_of(families: &[(FamilyName, u32)], family: &Blob) -> u32
    ensures { result ≡ versions_of families.now family.now }
{
    for line in families {
        if *line.0.as_slice() == *family.as_slice() {
            return line.1;
        }
    }
    0
}

/// How many cells are of a cell's column and newer.
fn newer(cell: &Cell, cells: &[Cell]) -> usize
    ensures { result ≡ count_by (λ d. is_newer d cell.now) cells.now }
{
    let mut count = 0;
    for other in cells {
        if is_same_column(other, cell) && cell.ts < other.ts {
            count += 1;
        }
    }
    count
}

/// Whether fewer cells of a cell's column are newer than its family has versions.
#[tactic(auto, unfolding(crate::specs::VisibleSteps::is_newest_in))]
fn is_newest(families: &[(FamilyName, u32)], cell: &Cell, cells: &[Cell]) -> bool
    ensures { result ≡ is_newest_in families.now cells.now cell.now }
{
    let versions = versions_of(families, &cell.family) as usize;
    newer(cell, cells) < versions
}

/// Of each column those that are among the newest of a list, as many as its family has versions.
fn newest(
    alloc: Global,
    families: &[(FamilyName, u32)],
    cells: &[Cell],
    among: &[Cell],
) -> Result<Items<Cell>, NoMemory>
    ensures { IfOk result (λ some. some ≡ filter (is_newest_in families.now among.now) cells.now) }
{
    let mut some = Vec::new(alloc);
    for cell in cells {
        if is_newest(families, cell, among) {
            some.push(cell.copy()?)?;
        }
    }
    Ok(Items::from_vec(some))
}

/// The cells that a read shows.
#[tactic(auto, unfolding(crate::specs::VisibleSteps::is_unhidden_in, crate::specs::VisibleSteps::is_newest_in))]
pub fn visible(
    alloc: Global,
    families: &[(FamilyName, u32)],
    cells: &[Cell],
) -> Result<Items<Cell>, NoMemory>
    ensures { IfOk result (λ some. some ≡ visible families.now cells.now) }
{
    let all = sorted(alloc, cells)?;
    let puts = unhidden(alloc, all.as_slice(), all.as_slice())?;
    let one_each = firsts(alloc, puts.as_slice())?;
    newest(alloc, families, one_each.as_slice(), one_each.as_slice())
}

/// The cells with so many at the front replaced by the visible ones among them.
pub fn compacted(
    alloc: Global,
    families: &[(FamilyName, u32)],
    count: usize,
    cells: &[Cell],
) -> Result<Items<Cell>, NoMemory>
    ensures { IfOk result (λ all. all ≡ compacted families.now count cells.now) }
{
    let begin = front(alloc, cells, count)?;
    let seen = visible(alloc, families, begin.as_slice())?;
    joined(seen, back(alloc, cells, count)?.as_slice())
}
