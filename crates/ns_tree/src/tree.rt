//! The files of a store, as a value.
ghost use Rattle.std.specs.Prelude.{◌≡◌, ◌⊎◌, ℕ, List, All, true, ◌++◌, IsTrue, IfOk, IfErr, OnOk, OnErr, Some, None, option_copied, option_map, take, drop};
ghost use Rattle.hb_names.specs.Place.{IsPlace};
ghost use Rattle.ns_tree.specs.Moves.{IsMove, is_source};
ghost use Rattle.ns_tree.specs.Places.{is_within};
ghost use Rattle.ns_tree.specs.Namespace.{bytes_at, stat_of};
ghost use Rattle.ns_tree.specs.Step.{Create, Append, Rename, Delete, Touch, step, refusal, change_refusal, rename_refusal};
ghost use Rattle.std.specs.FinMap as map;
ghost use Rattle.ns_tree.specs.Tree.{IsTree, listing, create_refusal};

use crate::file::{FileState, Stat};
use crate::file_bytes::FileBytes;
use crate::files::Files;
use crate::moves::{Move, has_too_deep, moves};
use crate::namespace::NsError;
use crate::places::is_below;
use bytes::Bytes;
use hb_names::Place;
use hb_wire::{Copied, Items, NoMemory};
use std::alloc::Global;
use std::marker::Model;

/// A map from places to files, in byte order of the places' texts. No file stands below a file.
#[derive(Drop)]
pub struct Tree {
    files: Files,
}

impl Model for Tree {
    ghost use Rattle.std.specs.FinMap as map;
    ghost use Rattle.std.specs.Ordering.{nat_cmp};
    ghost use Rattle.std.specs.Cmp.Lexicographic.{slice_cmp};
    ghost use Rattle.ns_tree.specs.declared.file.FileState.{FileState};
    ghost use Rattle.ns_tree.specs.Coded.{tree_code};
    ghost use Rattle.ns_tree.specs.Tree.{IsTree};

    ghost Value = { map.FinMap (slice_cmp nat_cmp) FileState };

    ghost coded = { tree_code };

    ghost view = { λ tree. tree.files };

    ghost invariant = { λ tree. IsTree tree.files };
}

impl Tree {
    /// The tree of no files.
    pub fn new(alloc: Global) -> Tree
        ensures { result ≡ map.empty }
    {
        Tree {
            files: Files::new(alloc),
        }
    }

    /// Does nothing when it runs: a caller's proof learns from it what every tree keeps.
    pub(crate) fn holds(&self)
        ensures { IsTree self.now }
    {
        let _ = &self.files;
    }

    /// The file at a place.
    pub fn get(&self, place: &Place) -> Option<&FileState>
        ensures { option_copied result ≡ map.get self.now place.now }
    {
        self.files.get(place.as_blob())
    }

    /// Adds a file. `Exists`: a file stands at the place or below it. `BelowFile`: the place lies below a
    /// file. A refused file changes nothing.
    pub fn add(&mut self, place: Place, file: FileState) -> Result<(), NsError>
        ensures ok { OnOk result (self.new ≡ map.insert self.old place file) }
        ensures free { OnOk result (create_refusal place self.old ≡ None) }
        ensures refused { IfErr result (λ error. (error ≡ NsError.NoMemory) ⊎ (create_refusal place self.old ≡ Some error)) }
        ensures err { OnErr result (self.new ≡ self.old) }
    {
        self.check_free(&place)?;
        self.files.put(place.into_blob(), file)?;
        Ok(())
    }

    // Whether a file can be made at a place.
    fn check_free(&self, place: &Place) -> Result<(), NsError>
        ensures free { OnOk result (create_refusal place.now self.now ≡ None) }
        ensures refused { IfErr result (λ error. (error ≡ NsError.NoMemory) ⊎ (create_refusal place.now self.now ≡ Some error)) }
    {
        if self.files.is_taken(place)? {
            return Err(NsError::Exists);
        }
        if self.files.is_below_file(place)? {
            return Err(NsError::BelowFile);
        }
        Ok(())
    }

    /// Makes a file with moment 0.
    pub(crate) fn create(&mut self, place: &Place, bytes: &[u8]) -> Result<(), NsError>
        ensures ok { OnOk result (self.new ≡ step (Create place.now bytes.now) self.old) }
        ensures free { OnOk result (refusal (Create place.now bytes.now) self.old ≡ None) }
        ensures refused { IfErr result (λ error. (error ≡ NsError.NoMemory) ⊎ (refusal (Create place.now bytes.now) self.old ≡ Some error)) }
        ensures err { OnErr result (self.new ≡ self.old) }
    {
        let alloc = self.files.allocator();
        let bytes = FileBytes::of(alloc, Bytes::copy_from_slice(alloc, bytes)?)?;
        self.add(place.copy()?, FileState { bytes, moment: 0 })
    }

    /// Adds bytes at the end of a file.
    pub(crate) fn append(&mut self, place: &Place, bytes: &[u8]) -> Result<(), NsError>
        ensures ok { OnOk result (self.new ≡ step (Append place.now bytes.now) self.old) }
        ensures stood { OnOk result (refusal (Append place.now bytes.now) self.old ≡ None) }
        ensures refused { IfErr result (λ error. (error ≡ NsError.NoMemory) ⊎ (refusal (Append place.now bytes.now) self.old ≡ Some error)) }
        ensures err { OnErr result (self.new ≡ self.old) }
    {
        if self.files.add_bytes(place.as_blob(), bytes)? {
            Ok(())
        } else {
            Err(NsError::Missing)
        }
    }

    /// Sets the moment of a file. It takes no memory.
    pub(crate) fn touch(&mut self, place: &Place, moment: u64) -> Result<(), NsError>
        ensures after { self.new ≡ step (Touch place.now moment) self.old }
        ensures stood { OnOk result (refusal (Touch place.now moment) self.old ≡ None) }
        ensures refused { IfErr result (λ error. refusal (Touch place.now moment) self.old ≡ Some error) }
        ensures err { OnErr result (self.new ≡ self.old) }
    {
        if self.files.set_moment(place.as_blob(), moment) {
            Ok(())
        } else {
            Err(NsError::Missing)
        }
    }

    /// Moves a file, or all files below a directory, with their bytes and moments.
    pub(crate) fn rename(&mut self, from: &Place, to: &Place) -> Result<(), NsError>
        ensures ok { OnOk result (self.new ≡ step (Rename from.now to.now) self.old) }
        ensures free { OnOk result (refusal (Rename from.now to.now) self.old ≡ None) }
        ensures refused { IfErr result (λ error. (error ≡ NsError.NoMemory) ⊎ (refusal (Rename from.now to.now) self.old ≡ Some error)) }
        ensures err { OnErr result (self.new ≡ self.old) }
    {
        let moves = self.plan(from, to)?;
        self.files.move_all(from, to, moves.as_slice())?;
        Ok(())
    }

    // The moves of a rename that nothing refuses.
    fn plan(&self, from: &Place, to: &Place) -> Result<Vec<Move>, NsError>
        ensures free { IfOk result (λ moves. rename_refusal from.now to.now self.now ≡ None) }
        ensures valid { IfOk result (λ moves. IsPlace to.now) }
        ensures each { IfOk result (λ moves. All (IsMove from.now to.now self.now) moves.items) }
        ensures whole { IfOk result (λ moves. (q : List ℕ) → is_within from.now q ≡ true → map.contains_key self.now q ≡ true → is_source moves.items q ≡ true) }
        ensures refused { IfErr result (λ error. (error ≡ NsError.NoMemory) ⊎ (rename_refusal from.now to.now self.now ≡ Some error)) }
    {
        let sources = self.files.sources(from)?;
        if sources.is_empty() {
            return Err(NsError::Missing);
        }
        let moves = moves(self.files.allocator(), from, to, sources)?;
        if is_below(from.as_slice(), to.as_slice()) || has_too_deep(moves.as_slice()) {
            return Err(NsError::Inside);
        }
        match self.check_free(to) {
            Ok(()) => Ok(moves),
            Err(error) => Err(error),
        }
    }

    /// Removes a file. It takes no memory.
    #[tactic(auto, using(crate::proofs::Trees::remove_absent))]
    pub(crate) fn delete(&mut self, place: &Place) -> Result<(), NsError>
        ensures after { self.new ≡ step (Delete place.now) self.old }
        ensures stood { OnOk result (refusal (Delete place.now) self.old ≡ None) }
        ensures refused { IfErr result (λ error. refusal (Delete place.now) self.old ≡ Some error) }
        ensures err { OnErr result (self.new ≡ self.old) }
    {
        if self.files.take(place.as_blob()) {
            Ok(())
        } else {
            Err(NsError::Missing)
        }
    }

    /// The bytes of a file from a position on, at most so many. They are shared where one piece of the file
    /// has them.
    pub(crate) fn read_at(&self, place: &Place, at: u64, len: usize) -> Result<Bytes, NsError>
        ensures ok { IfOk result (λ bytes. option_map (bytes_at at len) (map.get self.now place.now) ≡ Some bytes) }
        ensures refused { IfErr result (λ error. (error ≡ NsError.NoMemory) ⊎ (change_refusal place.now self.now ≡ Some error)) }
    {
        let Some(file) = self.get(place) else {
            return Err(NsError::Missing);
        };
        Ok(file.bytes.read(self.files.allocator(), at, len)?)
    }

    /// The size and the moment of a file.
    pub(crate) fn stat(&self, place: &Place) -> Result<Stat, NsError>
        ensures ok { IfOk result (λ stat. option_map stat_of (map.get self.now place.now) ≡ Some stat) }
        ensures refused { IfErr result (λ error. change_refusal place.now self.now ≡ Some error) }
    {
        let Some(file) = self.get(place) else {
            return Err(NsError::Missing);
        };
        Ok(Stat {
            size: file.bytes.len(),
            moment: file.moment,
        })
    }

    /// The places of all files, or of those below a directory, in byte order.
    pub fn listing(&self, below: Option<&Place>) -> Result<Items<Place>, NoMemory>
        ensures { IfOk result (λ places. places ≡ listing (option_copied below.entry) self.now) }
    {
        match below {
            Some(dir) => self.files.places_below(dir),
            None => self.files.places(),
        }
    }
}
