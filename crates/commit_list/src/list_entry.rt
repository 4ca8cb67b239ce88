//! Entries of store lists.

ghost use Rattle.std.specs.Prelude.{◌≡◌, ◌≤◌, ◌++◌, length, OnOk, IsTrue, ◌↔◌};
ghost use Rattle.hb_grammar.specs.Grammar.{Same};
ghost use Rattle.hb_grammar.specs.TextOf.{IsTextOf};
ghost use Rattle.commit_line.specs.ListError.{IsWordEnd, IsRead};
ghost use Rattle.commit_list.specs.ListEntry.{IsKind, kind_word, IsNameOf, IsEntry, entry_text};

use commit_line::{BadText, ListError, word_end};
use hb_file_names::file_grammar::file_grammar;
use hb_file_names::link_grammar::link_grammar;
use hb_file_names::ref_grammar::reference_grammar;
use hb_grammar::{Either, Grammar, Literal, scan};
use hb_names::FamilyName;
use hb_names::family_grammar::family_grammar;
use hb_wire::{Blob, Copied, NoMemory};
use std::alloc::Global;

/// How an entry of a store list names its file.
#[derive(Clone, Copy, Debug, PartialEq, Eq)]
pub enum EntryKind {
    /// A file of the region itself, by its file name.
    Own,
    /// A file of another region, by a link's name.
    Link,
    /// One half of a file of the region that was split, by a reference's name.
    Half,
}

/// An entry of a store list: its family, and the name of its file in the directory of that family.
#[derive(Debug, Drop, PartialEq, Eq)]
pub struct ListEntry {
    pub kind: EntryKind,
    pub family: FamilyName,
    pub name: Blob,
}

impl ListEntry {
    /// Whether the name is one of the entry's kind.
    pub fn is_valid(&self) -> bool
        ensures { IsTrue result ↔ IsEntry self.now }
    {
        // The family's name is one by its type.
        let _family = self.family.as_slice();
        is_name_of(self.kind, self.name.as_slice())
    }

    /// Adds the entry's line at the end of `text`.
    pub(crate) fn write(&self, text: &mut Blob) -> Result<(), NoMemory>
        ensures { OnOk result (text.new ≡ text.old ++ entry_text self.now) }
    {
        text.add(word_of(self.kind))?;
        text.add(b" ")?;
        text.add(self.family.as_slice())?;
        text.add(b" ")?;
        text.add(self.name.as_slice())?;
        text.add(b"\n")
    }
}

impl Copied for ListEntry {
    fn copy(&self) -> Result<ListEntry, NoMemory> {
        Ok(ListEntry {
            kind: self.kind,
            family: self.family.copy()?,
            name: self.name.copy()?,
        })
    }
}

type Words = Either<Literal, Either<Literal, Literal>>;

/// The grammar of the words of the kinds.
fn kind_grammar() -> Words
    ensures { Same (⟦<Words as Grammar>⟧.spells result) (IsTextOf IsKind kind_word) }
{
    let others = Either::new(Literal { text: b"link" }, Literal { text: b"half" });
    Either::new(Literal { text: b"own" }, others)
}

/// The kind that a word stands for.
fn kind_of(word: &[u8]) -> EntryKind
    requires { IsTextOf IsKind kind_word word.now }
    ensures { kind_word result ≡ word.now }
{
    match word[0] {
        b'o' => EntryKind::Own,
        b'l' => EntryKind::Link,
        _ => EntryKind::Half,
    }
}

/// The word of a kind.
fn word_of(kind: EntryKind) -> &'static [u8]
    ensures { result.now ≡ kind_word kind }
{
    match kind {
        EntryKind::Own => b"own",
        EntryKind::Link => b"link",
        EntryKind::Half => b"half",
    }
}

/// Whether the bytes are a string of a grammar.
fn is_spelled<G: Grammar>(grammar: G, bytes: &[u8]) -> bool
    ensures { IsTrue result ↔ G.spells grammar bytes.now }
{
    scan(grammar, bytes).is_ok()
}

/// Whether the bytes are a name of a kind.
fn is_name_of(kind: EntryKind, name: &[u8]) -> bool
    ensures { IsTrue result ↔ IsNameOf kind name.now }
{
    match kind {
        EntryKind::Own => is_spelled(file_grammar(), name),
        EntryKind::Link => is_spelled(link_grammar(), name),
        EntryKind::Half => is_spelled(reference_grammar(), name),
    }
}

/// The place behind the name of a kind that stands at a place, and behind its line feed.
fn name_end(kind: EntryKind, bytes: &[u8], at: usize) -> Result<usize, BadText>
    requires { at ≤ length bytes.now }
    ensures { IsWordEnd (IsNameOf kind) 10 bytes.now at result }
{
    match kind {
        EntryKind::Own => word_end(file_grammar(), b'\n', bytes, at),
        EntryKind::Link => word_end(link_grammar(), b'\n', bytes, at),
        EntryKind::Half => word_end(reference_grammar(), b'\n', bytes, at),
    }
}

/// The entry at a place, and the place behind it.
pub(crate) fn read_entry(
    alloc: Global,
    bytes: &[u8],
    at: usize,
) -> Result<(ListEntry, usize), ListError>
    requires { at ≤ length bytes.now }
    ensures { IsRead IsEntry entry_text bytes.now at result }
{
    let family_at = word_end(kind_grammar(), b' ', bytes, at)?;
    let kind = kind_of(&bytes[at..family_at - 1]);
    let name_at = word_end(family_grammar(), b' ', bytes, family_at)?;
    let end = name_end(kind, bytes, name_at)?;
    let entry = ListEntry {
        kind,
        family: FamilyName::copy_of(alloc, &bytes[family_at..name_at - 1])?,
        name: Blob::copy_of(alloc, &bytes[name_at..end - 1])?,
    };
    Ok((entry, end))
}
