//! Store lists of regions.

ghost use Rattle.std.specs.Prelude.{◌≡◌, ◌≤◌, ◌++◌, length, drop, IfOk, IfErr, OnOk, Err, codes, IsTrue, ◌↔◌};
ghost use Rattle.std.specs.List.{AllByRecursion};
ghost use Rattle.hb_grammar.specs.TextOf.{IsTextOf};
ghost use Rattle.commit_line.specs.ListError.{IsFileRefusal, IsRefusalAt};
ghost use Rattle.commit_list.specs.ListEntry.{IsEntry};
ghost use Rattle.commit_line.specs.Line.{number_line};
ghost use Rattle.commit_list.specs.declared.region_list.RegionList.{RegionList};
ghost use Rattle.commit_list.specs.RegionList.{IsRegionList, region_list_text, entries_text, IsListFile, GivesList};
ghost use Rattle.commit_line.specs.Numbered.{HasOtherNumber, IsNumberedRefusal};
ghost use Rattle.commit_line.specs.declared.error.ListError.TheVariants.{BadList};

use crate::list_entry::{ListEntry, read_entry};
use commit_line::{ListError, MAX_NUMBER, check_number, read_number};
use hb_grammar::{Literal, scan};
use hb_wire::{Blob, Copied, Items, NoMemory};
use std::alloc::Global;

/// The store list of a region: its number, the greatest sequence number of its files, and its entries in the
/// order in which they joined.
#[derive(Debug, Drop, PartialEq, Eq)]
pub struct RegionList {
    pub number: u64,
    pub seq: u64,
    pub entries: Items<ListEntry>,
}

/// The entries from a place on, and the line that ends them and the bytes.
fn read_entries(alloc: Global, bytes: &[u8], at: usize) -> Result<Items<ListEntry>, ListError>
    requires { at ≤ length bytes.now }
    ensures found { IfOk result (λ entries. AllByRecursion IsEntry entries × (drop at bytes.now ≡ entries_text entries)) }
    ensures fault { IfErr result (IsRefusalAt (IsTextOf (AllByRecursion IsEntry) entries_text) bytes.now at) }
{
    let mut entries = Vec::new(alloc);
    let mut place = at;
    while place < bytes.len() && bytes[place] != b'e' {
        let (entry, end) = read_entry(alloc, bytes, place)?;
        entries.push(entry)?;
        place = end;
    }
    match scan(Literal { text: b"end\n" }, &bytes[place..]) {
        Ok(()) => Ok(Items::from_vec(entries)),
        Err(fault) => Err(ListError::BadList((place + fault.0) as u64)),
    }
}

/// What [`RegionList::decode`] answers.
fn all_of_list(alloc: Global, bytes: &[u8]) -> Result<RegionList, ListError>
    ensures found { IfOk result (λ list. IsRegionList list × (bytes.now ≡ region_list_text list)) }
    ensures fault { IfErr result (IsFileRefusal IsListFile bytes.now) }
{
    let (number, seq_at) = read_number(b"list ", 1, MAX_NUMBER, bytes, 0)?;
    let (seq, entries_at) = read_number(b"seq ", 0, MAX_NUMBER, bytes, seq_at)?;
    let entries = read_entries(alloc, bytes, entries_at)?;
    Ok(RegionList {
        number,
        seq,
        entries,
    })
}

/// Adds a word, a blank, a number and a line feed at the end of `text`.
fn add_number(text: &mut Blob, word: &[u8], number: u64) -> Result<(), NoMemory>
    ensures { OnOk result (text.new ≡ text.old ++ number_line word.now number) }
{
    let digits = number.to_string(text.allocator())?;
    text.add(word)?;
    text.add(b" ")?;
    text.add(digits.as_bytes())?;
    text.add(b"\n")
}

/// Adds the lines of entries, and the one that ends them, at the end of `text`.
fn add_entries(text: &mut Blob, entries: &[ListEntry]) -> Result<(), NoMemory>
    ensures { OnOk result (text.new ≡ text.old ++ entries_text entries.now) }
{
    for entry in entries {
        entry.write(text)?;
    }
    text.add(b"end\n")
}

/// Whether each name is one of its entry's kind.
fn are_valid(entries: &[ListEntry]) -> bool
    ensures { IsTrue result ↔ AllByRecursion IsEntry entries.now }
{
    for entry in entries {
        if !entry.is_valid() {
            return false;
        }
    }
    true
}

impl RegionList {
    /// The list whose file has these bytes.
    pub fn decode(alloc: Global, bytes: &[u8]) -> Result<RegionList, ListError>
        // What is read is this list's file, each byte of it.
        ensures found { IfOk result (λ list. IsRegionList list × (bytes.now ≡ region_list_text list)) }
        // What is some list's file is read as this list.
        ensures only { (list : RegionList) → IsRegionList list → bytes.now ≡ region_list_text list → GivesList result list }
        // Which fault it is.
        ensures fault { IfErr result (IsFileRefusal IsListFile bytes.now) }
    {
        all_of_list(alloc, bytes)
    }

    /// The list of this number whose file has these bytes. Where the file begins with another number the
    /// answer is `BadList(0)`, before any fault of what stands behind.
    pub fn read(alloc: Global, number: u64, bytes: &[u8]) -> Result<RegionList, ListError>
        // What is read is this list's file, each byte of it.
        ensures found { IfOk result (λ list. IsRegionList list × (bytes.now ≡ region_list_text list)) }
        ensures number { IfOk result (λ list. list.number ≡ number) }
        // What is some list's file, and has the number, is read as this list.
        ensures only { (list : RegionList) → IsRegionList list → bytes.now ≡ region_list_text list → list.number ≡ number → GivesList result list }
        // What begins with another number is refused at place 0.
        ensures other { HasOtherNumber (codes "list ") number bytes.now → result ≡ Err (BadList 0) }
        // Which fault it is.
        ensures fault { IfErr result (IsNumberedRefusal (codes "list ") IsListFile number bytes.now) }
    {
        check_number(b"list ", number, bytes)?;
        all_of_list(alloc, bytes)
    }

    /// The bytes of the list's file.
    pub fn encode(&self, alloc: Global) -> Result<Blob, NoMemory>
        requires { IsRegionList self.now }
        ensures { IfOk result (λ text. text ≡ region_list_text self.now) }
    {
        let mut text = Blob::copy_of(alloc, b"")?;
        add_number(&mut text, b"list", self.number)?;
        add_number(&mut text, b"seq", self.seq)?;
        add_entries(&mut text, self.entries.as_slice())?;
        Ok(text)
    }

    /// Whether a file can have the list.
    pub fn is_valid(&self) -> bool
        ensures { IsTrue result ↔ IsRegionList self.now }
    {
        self.number > 0
            && self.number <= MAX_NUMBER
            && self.seq <= MAX_NUMBER
            && are_valid(self.entries.as_slice())
    }
}

impl Copied for RegionList {
    fn copy(&self) -> Result<RegionList, NoMemory> {
        Ok(RegionList {
            number: self.number,
            seq: self.seq,
            entries: self.entries.copy()?,
        })
    }
}
