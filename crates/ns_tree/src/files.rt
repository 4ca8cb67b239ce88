//! The map from places' texts to files.
ghost use Rattle.std.specs.Prelude.{◌≡◌, ◌++◌, IfOk, OnOk, OnErr, Some, codes, option_copied};
ghost use Rattle.std.specs.FinMap as map;
ghost use Rattle.std.specs.Ordering.{nat_cmp};
ghost use Rattle.std.specs.Cmp.Lexicographic.{slice_cmp};
ghost use Rattle.hb_names.specs.Place.{IsPlace};
ghost use Rattle.ns_tree.specs.Step.{Append, Touch, step};
ghost use Rattle.ns_tree.specs.Tree.{listing, is_taken, is_below_file, HasPlaces};

use crate::file::FileState;
use crate::places::is_below;
use hb_names::Place;
use hb_wire::{Blob, Copied, Items, NoMemory};
use std::alloc::{AllocError, Global};
use std::collections::BTreeMap;
use std::marker::Model;

/// A map from texts to files, in byte order of the texts.
// The keys are texts and not places, so that a search may begin at `dir/`, which is no place.
#[derive(Drop)]
pub(crate) struct Files {
    alloc: Global,
    files: BTreeMap<Blob, FileState>,
}

impl Model for Files {
    ghost use Rattle.std.specs.FinMap as map;
    ghost use Rattle.std.specs.Ordering.{nat_cmp};
    ghost use Rattle.std.specs.Cmp.Lexicographic.{slice_cmp};
    ghost use Rattle.ns_tree.specs.declared.file.FileState.{FileState};
    ghost use Rattle.ns_tree.specs.Coded.{tree_code};

    ghost Value = { map.FinMap (slice_cmp nat_cmp) FileState };

    ghost coded = { tree_code };

    ghost view = { λ f. map.from_entries f.files.entries };
}

#[tactic(auto, using(crate::proofs::Entries::get_file, crate::proofs::Entries::insert_from_entries, crate::proofs::Entries::remove_from_entries))]
impl Files {
    pub(crate) fn new(alloc: Global) -> Files
        ensures { result ≡ map.empty }
    {
        Files {
            alloc,
            files: BTreeMap::new(alloc),
        }
    }

    pub(crate) fn get(&self, text: &Blob) -> Option<&FileState>
        ensures { option_copied result ≡ map.get self.now text.now }
    {
        self.files.get(text)
    }

    pub(crate) fn has(&self, text: &Blob) -> bool
        ensures { result ≡ map.contains_key self.now text.now }
    {
        self.files.contains_key(text)
    }

    pub(crate) fn put(&mut self, text: Blob, file: FileState) -> Result<(), NoMemory>
        ensures ok { OnOk result (self.new ≡ map.insert self.old text file) }
        ensures err { OnErr result (self.new ≡ self.old) }
    {
        match self.files.insert(text, file) {
            Ok(_) => Ok(()),
            Err(_) => Err(AllocError),
        }
    }

    /// Takes the file at a text away, and says whether one was there.
    pub(crate) fn take(&mut self, text: &Blob) -> bool
        ensures taken { self.new ≡ map.remove self.old text.now }
        ensures found { result ≡ map.contains_key self.old text.now }
    {
        self.files.remove(text).is_some()
    }

    /// Sets the moment of the file at a text, and says whether one is there. It takes no memory.
    pub(crate) fn set_moment(&mut self, text: &Blob, moment: u64) -> bool
        ensures set { self.new ≡ step (Touch text.now moment) self.old }
        ensures found { result ≡ map.contains_key self.old text.now }
    {
        set_moment(&mut self.files, text, moment)
    }

    /// Adds bytes at the end of the file at a text, and says whether one is there.
    pub(crate) fn add_bytes(&mut self, text: &Blob, bytes: &[u8]) -> Result<bool, NoMemory>
        ensures set { OnOk result (self.new ≡ step (Append text.now bytes.now) self.old) }
        ensures found { IfOk result (λ found. found ≡ map.contains_key self.old text.now) }
        ensures err { OnErr result (self.new ≡ self.old) }
    {
        add_bytes(&mut self.files, self.alloc, text, bytes)
    }

    pub(crate) fn allocator(&self) -> Global {
        self.alloc
    }

    /// Whether a file stands at a place or below it.
    pub(crate) fn is_taken(&self, place: &Place) -> Result<bool, NoMemory>
        ensures { IfOk result (λ taken. taken ≡ is_taken place.now self.now) }
    {
        if self.has(place.as_blob()) {
            return Ok(true);
        }
        match self.files.range(first_below(self.alloc, place)?..).next() {
            Some((text, _)) => Ok(is_below(place.as_slice(), text.as_slice())),
            None => Ok(false),
        }
    }

    /// Whether a place lies below a file.
    pub(crate) fn is_below_file(&self, place: &Place) -> Result<bool, NoMemory>
        ensures { IfOk result (λ below. below ≡ is_below_file place.now self.now) }
    {
        let text = place.as_slice();
        let mut front = Blob::from_vec(Vec::new(self.alloc));
        for (i, byte) in text.iter().enumerate() {
            if *byte == b'/' && self.is_file(&mut front, &text[..i])? {
                return Ok(true);
            }
        }
        Ok(false)
    }

    // Whether a file stands at a text, for which `key` lends its memory.
    fn is_file(&self, key: &mut Blob, text: &[u8]) -> Result<bool, NoMemory>
        ensures { IfOk result (λ is_file. is_file ≡ map.contains_key self.now text.now) }
    {
        key.truncate(0);
        key.add(text)?;
        Ok(self.has(key))
    }

    pub(crate) fn places(&self) -> Result<Items<Place>, NoMemory>
        requires { HasPlaces self.now }
        ensures { IfOk result (λ places. places ≡ map.keys self.now) }
    {
        let mut places = Vec::new(self.alloc);
        for text in self.files.keys() {
            places.push(place_of(text)?)?;
        }
        Ok(Items::from_vec(places))
    }

    pub(crate) fn places_below(&self, dir: &Place) -> Result<Items<Place>, NoMemory>
        requires { HasPlaces self.now }
        ensures { IfOk result (λ places. places ≡ listing (Some dir.now) self.now) }
    {
        let mut places = Vec::new(self.alloc);
        for (text, _) in self.files.range(first_below(self.alloc, dir)?..) {
            if !is_below(dir.as_slice(), text.as_slice()) {
                break;
            }
            places.push(place_of(text)?)?;
        }
        Ok(Items::from_vec(places))
    }
}

// Sets the moment of the file at a text, and says whether one is there.
fn set_moment(files: &mut BTreeMap<Blob, FileState>, text: &Blob, moment: u64) -> bool
    ensures set { map.from_entries files.new.entries ≡ step (Touch text.now moment) (map.from_entries files.old.entries) }
    ensures found { result ≡ map.contains_key {R = slice_cmp nat_cmp} (map.from_entries files.old.entries) text.now }
{
    match files.get_mut(text) {
        Some(file) => {
            file.moment = moment;
            true
        }
        None => false,
    }
}

// Adds bytes at the end of the file at a text, and says whether one is there.
fn add_bytes(
    files: &mut BTreeMap<Blob, FileState>,
    alloc: Global,
    text: &Blob,
    bytes: &[u8],
) -> Result<bool, NoMemory>
    ensures set { OnOk result (map.from_entries files.new.entries ≡ step (Append text.now bytes.now) (map.from_entries files.old.entries)) }
    ensures found { IfOk result (λ found. found ≡ map.contains_key {R = slice_cmp nat_cmp} (map.from_entries files.old.entries) text.now) }
    ensures err { OnErr result (map.from_entries {R = slice_cmp nat_cmp} files.new.entries ≡ map.from_entries files.old.entries) }
{
    match files.get_mut(text) {
        Some(file) => {
            file.bytes.add(alloc, bytes)?;
            Ok(true)
        }
        None => Ok(false),
    }
}

// The text before which no place below a directory stands.
fn first_below(alloc: Global, dir: &Place) -> Result<Blob, NoMemory>
    ensures { IfOk result (λ first. first ≡ dir.now ++ codes "/") }
{
    let mut first = Blob::copy_of(alloc, dir.as_slice())?;
    first.add(b"/")?;
    Ok(first)
}

// The place whose text this is.
fn place_of(text: &Blob) -> Result<Place, NoMemory>
    requires { IsPlace text.now }
    ensures { IfOk result (λ place. place ≡ text.now) }
{
    Ok(Place::from_blob(text.copy()?))
}
