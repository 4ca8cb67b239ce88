//! The words of a region's line, read off a place of a file.

ghost use Rattle.std.specs.Prelude.{◌≡◌, ◌≤◌, ℕ, List, length, option_copied, Some};
ghost use Rattle.hb_grammar.specs.Grammar.{Same};
ghost use Rattle.hb_grammar.specs.TextOf.{IsTextOf};
ghost use Rattle.hb_row_text.specs.RowText.{row_text, IsRowText};
ghost use Rattle.commit_line.specs.ListError.{IsRead, IsFound};
ghost use Rattle.region_set.specs.RegionLine.{IsRow, split_word, end_text};
ghost use Rattle.region_set.specs.RegionParts.{IsId, id_field, IsSplit, split_field, IsStart, start_field, IsEnd, end_line, AreBounds, bounds_text, IsRest, rest_text};

use commit_line::{BadText, ListError, word_end};
use hb_grammar::{AtLeast, Between, Either, Grammar, Literal, number_of};
use hb_row_text::{read_row, row_grammar};
use hb_wire::Blob;
use std::alloc::Global;

/// The id at a place, from `low` on, and the place behind it and a blank.
pub(crate) fn read_id(low: u64, bytes: &[u8], at: usize) -> Result<(u64, usize), BadText>
    requires { at ≤ length bytes.now }
    ensures { IsFound (IsId low) id_field bytes.now at result }
{
    let end = word_end(Between::new(low, u64::MAX), b' ', bytes, at)?;
    Ok((number_of(&bytes[at..end - 1]), end))
}

type SplitWords = Either<Literal, Literal>;

/// The grammar of the words that tell whether a region is split.
fn split_grammar() -> SplitWords
    ensures { Same (⟦<SplitWords as Grammar>⟧.spells result) (IsTextOf IsSplit split_word) }
{
    Either::new(Literal { text: b"open" }, Literal { text: b"split" })
}

/// Whether a word tells that a region is split.
fn is_split(word: &[u8]) -> bool
    requires { IsTextOf IsSplit split_word word.now }
    ensures { split_word result ≡ word.now }
{
    word.len() == 5
}

/// Whether the word at a place tells that a region is split, and the place behind it and a blank.
fn read_split(bytes: &[u8], at: usize) -> Result<(bool, usize), BadText>
    requires { at ≤ length bytes.now }
    ensures { IsFound IsSplit split_field bytes.now at result }
{
    let end = word_end(split_grammar(), b' ', bytes, at)?;
    Ok((is_split(&bytes[at..end - 1]), end))
}

/// The start at a place, whose text is not below `bound`, and the place behind it and a blank.
fn read_start(
    alloc: Global,
    bound: Option<&[u8]>,
    bytes: &[u8],
    at: usize,
) -> Result<(Blob, usize), ListError>
    requires bounded { (text : List ℕ) → option_copied bound ≡ Some text → IsRowText text }
    requires within { at ≤ length bytes.now }
    ensures { IsRead (IsStart (option_copied bound.entry)) start_field bytes.now at result }
{
    let grammar = AtLeast::new(row_grammar(), bound);
    let end = word_end(grammar, b' ', bytes, at)?;
    Ok((read_row(alloc, &bytes[at..end - 1])?, end))
}

/// The end of a region that a row key is: none where that has no bytes.
fn end_of(row: Blob) -> Option<Blob>
    ensures text { end_text result ≡ row_text row }
    ensures end { IsRow row → IsEnd result }
{
    if row.is_empty() { None } else { Some(row) }
}

/// The end at a place, and the place behind it and a line feed.
fn read_end(alloc: Global, bytes: &[u8], at: usize) -> Result<(Option<Blob>, usize), ListError>
    requires { at ≤ length bytes.now }
    ensures { IsRead IsEnd end_line bytes.now at result }
{
    let end = word_end(row_grammar(), b'\n', bytes, at)?;
    let row = read_row(alloc, &bytes[at..end - 1])?;
    Ok((end_of(row), end))
}

pub(crate) type Bounds = (Blob, Option<Blob>);

/// The start and the end at a place, and the place behind them.
fn read_bounds(
    alloc: Global,
    bound: Option<&[u8]>,
    bytes: &[u8],
    at: usize,
) -> Result<(Bounds, usize), ListError>
    requires bounded { (text : List ℕ) → option_copied bound ≡ Some text → IsRowText text }
    requires within { at ≤ length bytes.now }
    ensures { IsRead (AreBounds (option_copied bound.entry)) bounds_text bytes.now at result }
{
    let (start, end_at) = read_start(alloc, bound, bytes, at)?;
    let (end, behind) = read_end(alloc, bytes, end_at)?;
    Ok(((start, end), behind))
}

/// What stands behind a region's id: whether it is split, its start and its end, and the place behind them.
pub(crate) fn read_rest(
    alloc: Global,
    bound: Option<&[u8]>,
    bytes: &[u8],
    at: usize,
) -> Result<((bool, Bounds), usize), ListError>
    requires bounded { (text : List ℕ) → option_copied bound ≡ Some text → IsRowText text }
    requires within { at ≤ length bytes.now }
    ensures { IsRead (IsRest (option_copied bound.entry)) rest_text bytes.now at result }
{
    let (split, start_at) = read_split(bytes, at)?;
    let (bounds, behind) = read_bounds(alloc, bound, bytes, start_at)?;
    Ok(((split, bounds), behind))
}
