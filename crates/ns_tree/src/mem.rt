//! A store in memory.
ghost use Rattle.std.specs.Prelude.{◌≡◌, ◌≤◌, ◌⊎◌, ◌↔◌, Some, None, false, true, IfOk, OnOk, IfErr, IsErrOf, IsSome, IsTrue, length, option_copied, option_map};
ghost use Rattle.std.specs.FinMap as map;
ghost use Rattle.ns_tree.specs.MemStore.{is_failing_read, after_read, write_fate, after_write};
ghost use Rattle.ns_tree.specs.Namespace.{IsDone, IsRefused, is_create_error, is_change_error, bytes_at, stat_of};
ghost use Rattle.ns_tree.specs.Step.{Create, Append, Rename, Delete, Touch, step};
ghost use Rattle.ns_tree.specs.Tree.{IsTree, listing};

use crate::file::Stat;
use crate::namespace::{Namespace, NsError};
use crate::tree::Tree;
use bytes::Bytes;
use hb_names::Place;
use hb_wire::Items;
use std::marker::Model;

/// Keeps its tree in memory and tells it. The calls that are listed fail, by their numbers: writing and
/// reading calls are each counted from 1. A writing call that fails may still take effect.
#[derive(Drop)]
pub struct MemNs {
    tree: Tree,
    writes: Items<(u64, bool)>,
    reads: Items<u64>,
    written: u64,
    read: u64,
    faults: u64,
}

impl Model for MemNs {
    ghost use Rattle.ns_tree.specs.MemStore.{MemStore, mem_store_code};

    ghost Value = { MemStore };

    ghost coded = { mem_store_code };

    ghost view = { λ m. record { tree = m.tree; writes = m.writes; reads = m.reads; written = m.written; read = m.read; faults = m.faults } };
}

impl MemNs {
    /// A store of these files. `writes` has the numbers of the writing calls that fail, and whether each
    /// takes effect: of several pairs with one number the first counts. `reads` has those of the
    /// reading calls that fail.
    pub fn new(tree: Tree, writes: Items<(u64, bool)>, reads: Items<u64>) -> MemNs
        ensures { result ≡ record { tree = tree; writes = writes; reads = reads; written = 0; read = 0; faults = 0 } }
    {
        MemNs {
            tree,
            writes,
            reads,
            written: 0,
            read: 0,
            faults: 0,
        }
    }

    /// The tree.
    pub fn tree(&self) -> &Tree
        ensures { result.now ≡ self.now.tree }
    {
        &self.tree
    }

    /// The tree, without the store.
    pub fn into_tree(self) -> Tree
        ensures { result ≡ self.tree }
    {
        self.tree
    }

    // Counts a reading call, and says whether it fails.
    fn is_failing_read(&mut self) -> bool
        ensures fails { result ≡ is_failing_read self.old }
        ensures step { self.new ≡ after_read self.old }
        ensures later { self.old.faults ≤ self.new.faults }
    {
        self.read = self.read.saturating_add(1);
        let fails = self.reads.as_slice().contains(&self.read);
        if fails {
            self.faults = self.faults.saturating_add(1);
        }
        fails
    }
}

impl MemNs {
    // Counts a writing call. It fails where there is an answer: whether it takes effect all the same.
    fn count_write(&mut self) -> Option<bool>
        ensures fate { result ≡ write_fate self.old }
        ensures step { self.new ≡ after_write self.old.tree self.old }
        ensures later { self.old.faults ≤ self.new.faults }
    {
        let fate = self.write_fate();
        self.written = self.written.saturating_add(1);
        if fate.is_some() {
            self.faults = self.faults.saturating_add(1);
        }
        fate
    }

    fn write_fate(&self) -> Option<bool>
        ensures { result ≡ write_fate self.now }
    {
        let number = self.written.saturating_add(1);
        self.writes
            .as_slice()
            .iter()
            .find(|w| w.0 == number)
            .map(|w| w.1)
    }
}

impl Namespace for MemNs {
    ghost told = { λ m. Some m.tree };

    ghost faults = { λ m. m.faults };

    fn create(&mut self, place: &Place, bytes: &[u8]) -> Result<(), NsError>
        ensures done { OnOk result (IsDone (Create place.now bytes.now) (Some self.old.tree) (Some self.new.tree)) }
        ensures refused { IfErr result (λ error. IsRefused (Create place.now bytes.now) error (Some self.old.tree) (Some self.new.tree)) }
        ensures only { IfErr result (λ error. IsTrue (is_create_error error)) }

        // Exactly when it fails, what stands after a failure without effect, and what is counted.
        ensures fails { IsErrOf result NsError.Failed ↔ IsSome (write_fate self.old) }
        ensures idle { write_fate self.old ≡ Some false → self.new.tree ≡ self.old.tree }
        ensures counted { self.new ≡ after_write self.new.tree self.old }
        ensures later { self.old.faults ≤ self.new.faults }
    {
        match self.count_write() {
            None => self.tree.create(place, bytes),
            Some(false) => Err(NsError::Failed),
            Some(true) => {
                let _ = self.tree.create(place, bytes);
                Err(NsError::Failed)
            }
        }
    }

    fn append(&mut self, place: &Place, bytes: &[u8]) -> Result<(), NsError>
        ensures done { OnOk result (IsDone (Append place.now bytes.now) (Some self.old.tree) (Some self.new.tree)) }
        ensures refused { IfErr result (λ error. IsRefused (Append place.now bytes.now) error (Some self.old.tree) (Some self.new.tree)) }
        ensures only { IfErr result (λ error. IsTrue (is_change_error error)) }

        // Exactly when it fails, what stands after a failure without effect, and what is counted.
        ensures fails { IsErrOf result NsError.Failed ↔ IsSome (write_fate self.old) }
        ensures idle { write_fate self.old ≡ Some false → self.new.tree ≡ self.old.tree }
        ensures counted { self.new ≡ after_write self.new.tree self.old }
        ensures later { self.old.faults ≤ self.new.faults }
    {
        match self.count_write() {
            None => self.tree.append(place, bytes),
            Some(false) => Err(NsError::Failed),
            Some(true) => {
                let _ = self.tree.append(place, bytes);
                Err(NsError::Failed)
            }
        }
    }

    fn rename(&mut self, from: &Place, to: &Place) -> Result<(), NsError>
        ensures done { OnOk result (IsDone (Rename from.now to.now) (Some self.old.tree) (Some self.new.tree)) }
        ensures refused { IfErr result (λ error. IsRefused (Rename from.now to.now) error (Some self.old.tree) (Some self.new.tree)) }

        // Exactly when it fails, what stands after a failure without effect, and what is counted.
        ensures fails { IsErrOf result NsError.Failed ↔ IsSome (write_fate self.old) }
        ensures idle { write_fate self.old ≡ Some false → self.new.tree ≡ self.old.tree }
        ensures counted { self.new ≡ after_write self.new.tree self.old }
        ensures later { self.old.faults ≤ self.new.faults }
    {
        match self.count_write() {
            None => self.tree.rename(from, to),
            Some(false) => Err(NsError::Failed),
            Some(true) => {
                let _ = self.tree.rename(from, to);
                Err(NsError::Failed)
            }
        }
    }

    fn delete(&mut self, place: &Place) -> Result<(), NsError>
        ensures done { OnOk result (IsDone (Delete place.now) (Some self.old.tree) (Some self.new.tree)) }
        ensures refused { IfErr result (λ error. IsRefused (Delete place.now) error (Some self.old.tree) (Some self.new.tree)) }
        ensures only { IfErr result (λ error. IsTrue (is_change_error error)) }

        // Exactly when it fails, what stands after a failure with and without effect, and what is counted.
        ensures fails { IsErrOf result NsError.Failed ↔ IsSome (write_fate self.old) }
        ensures idle { write_fate self.old ≡ Some false → self.new.tree ≡ self.old.tree }
        ensures effect { write_fate self.old ≡ Some true → self.new.tree ≡ step (Delete place.now) self.old.tree }
        ensures counted { self.new ≡ after_write self.new.tree self.old }
        ensures later { self.old.faults ≤ self.new.faults }
    {
        match self.count_write() {
            None => self.tree.delete(place),
            Some(false) => Err(NsError::Failed),
            Some(true) => {
                let _ = self.tree.delete(place);
                Err(NsError::Failed)
            }
        }
    }

    fn touch(&mut self, place: &Place, moment: u64) -> Result<(), NsError>
        ensures done { OnOk result (IsDone (Touch place.now moment) (Some self.old.tree) (Some self.new.tree)) }
        ensures refused { IfErr result (λ error. IsRefused (Touch place.now moment) error (Some self.old.tree) (Some self.new.tree)) }
        ensures only { IfErr result (λ error. IsTrue (is_change_error error)) }

        // Exactly when it fails, what stands after a failure with and without effect, and what is counted.
        ensures fails { IsErrOf result NsError.Failed ↔ IsSome (write_fate self.old) }
        ensures idle { write_fate self.old ≡ Some false → self.new.tree ≡ self.old.tree }
        ensures effect { write_fate self.old ≡ Some true → self.new.tree ≡ step (Touch place.now moment) self.old.tree }
        ensures counted { self.new ≡ after_write self.new.tree self.old }
        ensures later { self.old.faults ≤ self.new.faults }
    {
        match self.count_write() {
            None => self.tree.touch(place, moment),
            Some(false) => Err(NsError::Failed),
            Some(true) => {
                let _ = self.tree.touch(place, moment);
                Err(NsError::Failed)
            }
        }
    }

    fn read_at(&mut self, place: &Place, at: u64, len: usize) -> Result<Bytes, NsError>
        ensures step { self.new ≡ after_read self.old }
        ensures fails { IsErrOf result NsError.Failed ↔ IsTrue (is_failing_read self.old) }
        ensures ok { IfOk result (λ bytes. option_map (bytes_at at len) (map.get self.old.tree place.now) ≡ Some bytes) }
        ensures most { IfOk result (λ bytes. length bytes ≤ len) }
        ensures missing { IsErrOf result NsError.Missing → map.get self.old.tree place.now ≡ None }
        ensures only { IfErr result (λ error. IsTrue (is_change_error error)) }
        ensures later { self.old.faults ≤ self.new.faults }
    {
        if self.is_failing_read() {
            return Err(NsError::Failed);
        }
        self.tree.read_at(place, at, len)
    }

    fn stat(&mut self, place: &Place) -> Result<Stat, NsError>
        ensures step { self.new ≡ after_read self.old }
        ensures fails { IsErrOf result NsError.Failed ↔ IsTrue (is_failing_read self.old) }
        ensures ok { IfOk result (λ stat. option_map stat_of (map.get self.old.tree place.now) ≡ Some stat) }
        ensures missing { IsErrOf result NsError.Missing → map.get self.old.tree place.now ≡ None }
        ensures only { IfErr result (λ error. IsTrue (is_change_error error)) }
        ensures later { self.old.faults ≤ self.new.faults }
    {
        if self.is_failing_read() {
            return Err(NsError::Failed);
        }
        self.tree.stat(place)
    }

    fn list(&mut self, below: Option<&Place>) -> Result<Items<Place>, NsError>
        ensures step { self.new ≡ after_read self.old }
        ensures fails { IsErrOf result NsError.Failed ↔ IsTrue (is_failing_read self.old) }
        ensures only { IfErr result (λ error. (error ≡ NsError.Failed) ⊎ (error ≡ NsError.NoMemory)) }
        ensures ok { IfOk result (λ places. places ≡ listing (option_copied below.entry) self.old.tree) }
        ensures later { self.old.faults ≤ self.new.faults }
    {
        if self.is_failing_read() {
            return Err(NsError::Failed);
        }
        Ok(self.tree.listing(below)?)
    }

    fn faults(&self) -> u64
        ensures count { result ≡ self.now.faults }
        ensures tree { IsTree self.now.tree }
    {
        self.tree.holds();
        self.faults
    }
}

#[cfg(test)]
mod tests;
