//! What is kept of cells that come in key order, until their row and family is over.
ghost use Rattle.std.specs.Prelude.{◌≡◌, ◌↔◌, IsTrue, ℕ, ◌+◌, ◌<◌, ◌^◌, true, List, [], IfErr, OnOk, OnErr, option_copied};
ghost use Rattle.cell_sight.specs.Visible.{same_version, versions_of};
ghost use Rattle.hb_cell.specs.Hiding.{same_family, same_column};
ghost use Rattle.cell_merge.specs.Kept.{Kept, empty, passes, is_hidden, last_of, shown_in, may_show, wider, absorb, with_put, ends};

use hb_cell::{Cell, Kind, hidden_by};
use hb_names::FamilyName;
use hb_wire::NoMemory;
use std::alloc::{AllocError, Global};
use std::collections::VecDeque;
use std::marker::Model;

/// The puts of one row and family that may show, and the markers that matter for what comes behind.
#[derive(Drop)]
pub(crate) struct Group {
    held: VecDeque<Cell>,
    /// How many of the puts that are held are of the last one's column.
    shown: u32,
    family: Option<Cell>,
    column: Option<Cell>,
    version: Option<Cell>,
}

impl Model for Group {
    ghost use Rattle.cell_merge.specs.Kept.{Kept};

    ghost Value = { Kept };

    ghost view = { λ group. record {
      held = group.held.items;
      shown = group.shown;
      family = group.family;
      column = group.column;
      version = group.version;
    } };
}

/// Whether two cells are of one row and family.
fn is_same_family(a: &Cell, b: &Cell) -> bool
    ensures { result ≡ same_family a.now b.now }
{
    a.row == b.row && a.family == b.family
}

/// Whether two cells are of one row, family and qualifier.
fn is_same_column(a: &Cell, b: &Cell) -> bool
    ensures { result ≡ same_column a.now b.now }
{
    is_same_family(a, b) && a.qualifier == b.qualifier
}

/// Whether two cells are of one column and timestamp.
fn is_same_version(a: &Cell, b: &Cell) -> bool
    ensures { result ≡ same_version a.now b.now }
{
    is_same_column(a, b) && a.ts == b.ts
}

/// Whether there is a marker that hides a put.
pub(crate) fn is_hidden(marker: &Option<Cell>, put: &Cell) -> bool
    ensures { result ≡ is_hidden marker.now put.now }
{
    match marker {
        None => false,
        Some(marker) => hidden_by(put, marker),
    }
}

/// How many versions of a family a read shows.
fn versions(families: &[(FamilyName, u32)], family: &[u8]) -> u32
    ensures { result ≡ versions_of families.now family.now }
{
    let mut rest = families;
    while let [(name, versions), others @ ..] = rest {
        if name.as_slice() == family {
            return *versions;
        }
        rest = others;
    }
    0
}

/// Of two markers of a kind the one that hides what the other hides.
fn widen(marker: &mut Option<Cell>, cell: Cell)
    ensures { marker.new ≡ wider marker.old cell }
{
    if !is_hidden(marker, &cell) {
        *marker = Some(cell);
    }
}

impl Group {
    /// Nothing is kept.
    pub(crate) fn new(alloc: Global) -> Group
        ensures { result ≡ empty }
    {
        Group {
            held: VecDeque::new(alloc),
            shown: 0,
            family: None,
            column: None,
            version: None,
        }
    }

    /// Whether no put is held.
    pub(crate) fn is_empty(&self) -> bool
        ensures { IsTrue result ↔ (self.now.held ≡ []) }
    {
        self.held.is_empty()
    }

    /// The put that came last of those that are held.
    fn last(&self) -> Option<&Cell>
        ensures { option_copied result ≡ last_of self.now.held }
    {
        self.held.back()
    }

    /// Whether the next cell is of another row or family than the puts that are held.
    pub(crate) fn is_ended_by(&self, cell: &Cell) -> bool
        ensures { result ≡ ends self.now cell.now }
    {
        match self.last() {
            None => false,
            Some(last) => !is_same_family(last, cell),
        }
    }

    /// How many puts of a cell's column are held.
    fn shown_in(&self, cell: &Cell) -> u32
        ensures { result ≡ shown_in self.now cell.now }
    {
        match self.last() {
            Some(last) if is_same_column(last, cell) => self.shown,
            _ => 0,
        }
    }

    /// Whether a put of the last one's column and timestamp is held.
    fn has_version(&self, cell: &Cell) -> bool
        ensures { result ≡ passes same_version (last_of self.now.held) cell.now }
    {
        match self.last() {
            None => false,
            Some(last) => is_same_version(last, cell),
        }
    }

    /// Whether a put may show, as far as the cells before it say.
    fn may_show(&self, cell: &Cell, families: &[(FamilyName, u32)]) -> bool
        ensures exact { result ≡ may_show families.now self.now cell.now }
        ensures room { result ≡ true → shown_in self.now cell.now + 1 < 2 ^ 32 }
    {
        !is_hidden(&self.family, cell)
            && !(is_hidden(&self.column, cell) || is_hidden(&self.version, cell))
            && !self.has_version(cell)
            && self.shown_in(cell) < versions(families, cell.family.as_slice())
    }

    /// Takes in the next cell in key order. Without memory nothing changes, and the cell comes back.
    pub(crate) fn absorb(
        &mut self,
        cell: Cell,
        families: &[(FamilyName, u32)],
    ) -> Result<(), (Cell, NoMemory)>
        ensures ok { OnOk result (self.new ≡ absorb families.now self.old cell) }
        ensures err { OnErr result (self.new ≡ self.old) }
        ensures returned { IfErr result (λ refused. refused.0 ≡ cell) }
    {
        match cell.kind {
            Kind::Put => self.hold(cell, families),
            Kind::Delete => {
                self.version = Some(cell);
                Ok(())
            }
            Kind::DeleteColumn => {
                widen(&mut self.column, cell);
                Ok(())
            }
            Kind::DeleteFamily => {
                widen(&mut self.family, cell);
                Ok(())
            }
        }
    }

    /// Takes in a put: it is held, or dropped.
    fn hold(&mut self, cell: Cell, families: &[(FamilyName, u32)]) -> Result<(), (Cell, NoMemory)>
        ensures ok { OnOk result (self.new ≡ with_put families.now self.old cell) }
        ensures err { OnErr result (self.new ≡ self.old) }
        ensures returned { IfErr result (λ refused. refused.0 ≡ cell) }
    {
        if !self.may_show(&cell, families) {
            return Ok(());
        }
        let shown = self.shown_in(&cell) + 1;
        match self.held.push_back(cell) {
            Ok(()) => {
                self.shown = shown;
                Ok(())
            }
            Err(refused) => Err((refused.value, AllocError)),
        }
    }

    /// Gives the puts away, with the marker of their family, and keeps nothing.
    pub(crate) fn give(&mut self, ready: &mut VecDeque<Cell>) -> Option<Cell>
        requires { ready.old.items ≡ [] }
        ensures puts { ready.new.items ≡ self.old.held }
        ensures marker { result ≡ self.old.family }
        ensures left { self.new ≡ empty }
    {
        std::mem::swap(ready, &mut self.held);
        self.shown = 0;
        self.column = None;
        self.version = None;
        self.family.take()
    }
}
