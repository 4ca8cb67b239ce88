//! Lines of regions.

ghost use Rattle.std.specs.Prelude.{◌≡◌, ◌≤◌, ◌++◌, length, IfSome, IfOk, OnOk, option_copied, option_map};
ghost use Rattle.hb_row_text.specs.RowText.{row_text};
ghost use Rattle.commit_line.specs.Line.{field};
ghost use Rattle.commit_line.specs.ListError.{IsRead};
ghost use Rattle.region_set.specs.RegionLine.{IsRow, IsRegion, IsRegionBehind, split_word, end_text, region_text};
ghost use Rattle.region_set.specs.RegionParts.{least_id, bound_text, bounds_text, AreParts, parts_text, region_of};

use crate::region_parts::{Bounds, read_id, read_rest};
use commit_line::{ListError, word_end};
use hb_grammar::Literal;
use hb_names::TableName;
use hb_records::RegionInfo;
use hb_row_text::{has_next_row, next_row, write_row};
use hb_wire::{Blob, Copied, NoMemory};
use std::alloc::Global;

/// The least id of a region behind another: that one's where its start has no next row.
fn least_id(last: Option<&(RegionInfo, bool)>) -> u64
    requires { IfSome (option_copied last) (λ region. IsRow region.0.start) }
    ensures { result ≡ least_id (option_copied last.entry) }
{
    match last {
        None => 0,
        Some(region) => {
            if has_next_row(region.0.start.as_slice()) {
                0
            } else {
                region.0.id
            }
        }
    }
}

/// The text of a row key, if there is one.
fn text_of(alloc: Global, row: Option<&Blob>) -> Result<Option<Blob>, NoMemory>
    ensures { IfOk result (λ text. text ≡ option_map row_text (option_copied row.entry)) }
{
    match row {
        None => Ok(None),
        Some(row) => {
            let mut text = Blob::from_vec(Vec::new(alloc));
            write_row(row.as_slice(), &mut text)?;
            Ok(Some(text))
        }
    }
}

/// The text of the least start of a region of this id behind another. The row next to that one's start is made
/// only where the id is below that one's.
fn bound_of(
    alloc: Global,
    last: Option<&(RegionInfo, bool)>,
    id: u64,
) -> Result<Option<Blob>, NoMemory>
    requires { IfSome (option_copied last) (λ region. IsRow region.0.start) }
    ensures { IfOk result (λ text. text ≡ bound_text (option_copied last.entry) id) }
{
    match last {
        None => Ok(None),
        Some(region) => {
            if id < region.0.id {
                let next = next_row(alloc, region.0.start.as_slice())?;
                text_of(alloc, next.as_ref())
            } else {
                text_of(alloc, Some(&region.0.start))
            }
        }
    }
}

/// The bytes of a text, if there is one.
fn bytes_of(text: &Option<Blob>) -> Option<&[u8]>
    ensures { option_copied result ≡ text.now }
{
    match text {
        None => None,
        Some(text) => Some(text.as_slice()),
    }
}

type Parts = (u64, (bool, Bounds));

/// The id and the rest of a region's line at a place, behind another region, and the place behind them.
fn read_parts(
    alloc: Global,
    last: Option<&(RegionInfo, bool)>,
    bytes: &[u8],
    at: usize,
) -> Result<(Parts, usize), ListError>
    requires last { IfSome (option_copied last) (λ region. IsRow region.0.start) }
    requires within { at ≤ length bytes.now }
    ensures { IsRead (AreParts (option_copied last.entry)) parts_text bytes.now at result }
{
    let (id, rest_at) = read_id(least_id(last), bytes, at)?;
    let bound = bound_of(alloc, last, id)?;
    let (rest, end) = read_rest(alloc, bytes_of(&bound), bytes, rest_at)?;
    Ok(((id, rest), end))
}

/// The region of a table that has these parts.
fn region_of(table: &TableName, parts: Parts) -> Result<(RegionInfo, bool), NoMemory>
    ensures { IfOk result (λ region. region ≡ region_of table.now parts) }
{
    let (id, (split, (start, end))) = parts;
    let table = table.copy()?;
    let info = RegionInfo {
        id,
        table,
        start,
        end,
    };
    Ok((info, split))
}

/// The region at a place, behind another one if there is one, and the place behind it.
pub(crate) fn read_region(
    alloc: Global,
    table: &TableName,
    last: Option<&(RegionInfo, bool)>,
    bytes: &[u8],
    at: usize,
) -> Result<((RegionInfo, bool), usize), ListError>
    requires last { IfSome (option_copied last) (IsRegion table.now) }
    requires within { at ≤ length bytes.now }
    ensures { IsRead (IsRegionBehind table.now (option_copied last.entry)) region_text bytes.now at result }
{
    let parts_at = word_end(Literal { text: b"region" }, b' ', bytes, at)?;
    let (parts, end) = read_parts(alloc, last, bytes, parts_at)?;
    Ok((region_of(table, parts)?, end))
}

/// The word that tells whether a region is split.
fn word_of(split: bool) -> &'static [u8]
    ensures { result.now ≡ split_word split }
{
    if split { b"split" } else { b"open" }
}

/// Adds the text of a region's end.
fn write_end(end: &Option<Blob>, out: &mut Blob) -> Result<(), NoMemory>
    ensures { OnOk result (out.new ≡ out.old ++ end_text end.now) }
{
    match end {
        None => out.add(b"-"),
        Some(row) => write_row(row.as_slice(), out),
    }
}

/// Adds a word and a blank.
fn write_field(word: &[u8], out: &mut Blob) -> Result<(), NoMemory>
    ensures { OnOk result (out.new ≡ out.old ++ field word.now) }
{
    out.add(word)?;
    out.add(b" ")
}

/// Adds the start and the end of a region.
fn write_bounds(info: &RegionInfo, out: &mut Blob) -> Result<(), NoMemory>
    ensures { OnOk result (out.new ≡ out.old ++ bounds_text (info.now.start, info.now.end)) }
{
    write_row(info.start.as_slice(), out)?;
    out.add(b" ")?;
    write_end(&info.end, out)?;
    out.add(b"\n")
}

/// Adds the line of a region at the end of `out`.
pub(crate) fn write_region(region: &(RegionInfo, bool), out: &mut Blob) -> Result<(), NoMemory>
    ensures { OnOk result (out.new ≡ out.old ++ region_text region.now) }
{
    let id = region.0.id.to_string(out.allocator())?;
    write_field(b"region", out)?;
    write_field(id.as_bytes(), out)?;
    write_field(word_of(region.1), out)?;
    write_bounds(&region.0, out)
}
