//! Lines of families.

ghost use Rattle.std.specs.Prelude.{◌≡◌, ◌≤◌, ◌==◌, ◌++◌, OnOk, None, length, drop, option_copied, ◌↔◌, IsTrue};
ghost use Rattle.std.specs.Fmt.{decimal};
ghost use Rattle.hb_grammar.specs.Grammar.{Same, IsLive};
ghost use Rattle.hb_grammar.specs.Rows.{IsBegun, RowsFrom};
ghost use Rattle.commit_line.specs.Line.{ended, IsNumber};
ghost use Rattle.commit_line.specs.ListError.{IsRead, IsFound};
ghost use Rattle.commit_line.specs.Rows.{AreRowsRead};
ghost use Rattle.region_set.specs.FamilyLine.{IsFamilyBehind, IsNameBehind, family_text, begins_family};

use commit_line::{BadText, ListError, read_number, word_end};
use hb_grammar::{AtLeast, Grammar, Literal};
use hb_names::FamilyName;
use hb_names::family_grammar::{FamilyGrammar, family_grammar};
use hb_wire::{Blob, Items, NoMemory};
use std::alloc::Global;
use std::cmp::Ordering;

type NameGrammar<'a> = AtLeast<'a, FamilyGrammar>;

/// The grammar of a family's name that is not below the last one's.
fn name_grammar<'a>(last: Option<&'a (FamilyName, u32)>) -> NameGrammar<'a>
    ensures names { Same (⟦<NameGrammar<'a> as Grammar>⟧.spells result) (IsNameBehind (option_copied last.entry)) }
    ensures live { IsLive (IsNameBehind (option_copied last.entry)) }
{
    match last {
        Some(family) => AtLeast::new(family_grammar(), Some(family.0.as_slice())),
        None => AtLeast::new(family_grammar(), None),
    }
}

/// The number of versions at a place and before a line feed, and the place behind that.
fn read_versions(bytes: &[u8], at: usize) -> Result<(u64, usize), BadText>
    requires { at ≤ length bytes.now }
    ensures { IsFound (IsNumber 1 2_147_483_647) (λ number. ended (decimal number)) bytes.now at result }
{
    read_number(b"", 1, 2_147_483_647, bytes, at)
}

/// The family whose line stands at a place, behind the last one, and the place behind the line.
pub(crate) fn read_family(
    alloc: Global,
    last: Option<&(FamilyName, u32)>,
    bytes: &[u8],
    at: usize,
) -> Result<((FamilyName, u32), usize), ListError>
    requires { at ≤ length bytes.now }
    ensures { IsRead (IsFamilyBehind (option_copied last.entry)) family_text bytes.now at result }
{
    let names = name_grammar(last);
    let name_at = word_end(Literal { text: b"family" }, b' ', bytes, at)?;
    let versions_at = word_end(names, b' ', bytes, name_at)?;
    let (versions, end) = read_versions(bytes, versions_at)?;
    let name = FamilyName::copy_of(alloc, &bytes[name_at..versions_at - 1])?;
    Ok(((name, versions as u32), end))
}

/// Whether a byte stands at a place.
fn begins(bytes: &[u8], at: usize, byte: u8) -> bool
    ensures { IsTrue result ↔ IsBegun (λ first. first == byte) (drop at bytes.now) }
{
    at < bytes.len() && bytes[at] == byte
}

/// The families whose lines stand from a place on, and the place behind them, where none begins.
pub(crate) fn read_families(
    alloc: Global,
    bytes: &[u8],
    at: usize,
) -> Result<(Items<(FamilyName, u32)>, usize), ListError>
    requires { at ≤ length bytes.now }
    ensures { AreRowsRead IsFamilyBehind family_text begins_family bytes.now at result }
{
    let mut families = Vec::new(alloc);
    let mut place = at;
    while begins(bytes, place, b'f') {
        let (family, end) = read_family(alloc, families.as_slice().last(), bytes, place)?;
        families.push(family)?;
        place = end;
    }
    Ok((Items::from_vec(families), place))
}

/// Adds the line of a family at the end.
pub(crate) fn write_family(family: &(FamilyName, u32), out: &mut Blob) -> Result<(), NoMemory>
    ensures { OnOk result (out.new ≡ out.old ++ family_text family.now) }
{
    out.add(b"family ")?;
    family.0.write(out)?;
    out.add(b" ")?;
    let versions = family.1.to_string(out.allocator())?;
    out.add(versions.as_bytes())?;
    out.add(b"\n")
}

/// Whether a set can have a family behind the last one.
fn is_behind(last: Option<&(FamilyName, u32)>, family: &(FamilyName, u32)) -> bool
    ensures { IsTrue result ↔ IsFamilyBehind (option_copied last.entry) family.now }
{
    let name = family.0.as_slice();
    if family.1 == 0 || family.1 > 2_147_483_647 {
        return false;
    }
    match last {
        Some(last) => match last.0.as_slice().cmp(name) {
            Ordering::Greater => false,
            _ => true,
        },
        None => true,
    }
}

/// Whether a set can have these families.
pub(crate) fn are_families(families: &[(FamilyName, u32)]) -> bool
    ensures { IsTrue result ↔ RowsFrom IsFamilyBehind None families.now }
{
    let mut last = None;
    for family in families {
        if !is_behind(last, family) {
            return false;
        }
        last = Some(family);
    }
    true
}
