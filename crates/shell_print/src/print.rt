//! How replies are printed.
ghost use Rattle.std.specs.Prelude.{◌≡◌, ◌++◌, OnOk, OnErr, length, codes};
ghost use Rattle.std.specs.List.{flat_map};
ghost use Rattle.shell_print.specs.Piece.{Begins, line, piece_text};
ghost use Rattle.shell_print.specs.ReplyText.{cell_line, deleted_line, count_line, refused_line, refused_with, reply_text};

use crate::piece::{Piece, add_line};
use hb_cell::Cell;
use hb_names::{Place, SnapName};
use hb_wire::{Blob, NoMemory};
use plain_model::Reply;

/// Adds the line of a refusal.
pub(crate) fn add_refused(word: &[u8], out: &mut Blob) -> Result<(), NoMemory>
    ensures ok { OnOk result (out.new ≡ out.old ++ refused_line word.now) }
    ensures err { OnErr result (out.new ≡ out.old) }
{
    add_line(&[Piece::Plain(b"refused "), Piece::Plain(word)], out)
}

/// Adds the line of a refusal with a field.
pub(crate) fn add_refused_with<'a>(
    word: &'a [u8],
    field: Piece<'a>,
    out: &mut Blob,
) -> Result<(), NoMemory>
    ensures ok { OnOk result (out.new ≡ out.old ++ refused_with word.now (piece_text field.entry)) }
    ensures err { OnErr result (out.new ≡ out.old) }
{
    add_line(
        &[
            Piece::Plain(b"refused "),
            Piece::Plain(word),
            Piece::Plain(b" "),
            field,
        ],
        out,
    )
}

/// Adds the line of a count.
fn add_count(count: u64, word: &[u8], out: &mut Blob) -> Result<(), NoMemory>
    ensures ok { OnOk result (out.new ≡ out.old ++ count_line count word.now) }
    ensures err { OnErr result (out.new ≡ out.old) }
{
    add_line(
        &[Piece::Number(count), Piece::Plain(b" "), Piece::Plain(word)],
        out,
    )
}

/// Adds the line of a cell.
fn add_cell(cell: &Cell, out: &mut Blob) -> Result<(), NoMemory>
    ensures ok { OnOk result (out.new ≡ out.old ++ cell_line cell.now) }
    ensures err { OnErr result (out.new ≡ out.old) }
{
    add_line(
        &[
            Piece::Shown(cell.row.as_slice()),
            Piece::Plain(b" "),
            Piece::Plain(cell.family.as_slice()),
            Piece::Plain(b":"),
            Piece::Shown(cell.qualifier.as_slice()),
            Piece::Plain(b" ts="),
            Piece::Number(cell.ts),
            Piece::Plain(b" value="),
            Piece::Shown(cell.value.as_slice()),
        ],
        out,
    )
}

/// Adds the lines of cells and their number.
fn add_cells(cells: &[Cell], out: &mut Blob) -> Result<(), NoMemory>
    ensures ok { OnOk result (out.new ≡ out.old ++ (flat_map cell_line cells.now ++ count_line (length cells.now) (codes "cells"))) }
    ensures err { OnErr result (Begins out.old out.new) }
{
    for cell in cells {
        add_cell(cell, out)?;
    }
    add_count(cells.len() as u64, b"cells", out)
}

/// Adds the lines of snapshot names and their number.
fn add_snapshots(names: &[SnapName], out: &mut Blob) -> Result<(), NoMemory>
    ensures ok { OnOk result (out.new ≡ out.old ++ (flat_map line names.now ++ count_line (length names.now) (codes "snapshots"))) }
    ensures err { OnErr result (Begins out.old out.new) }
{
    for name in names {
        add_line(&[Piece::Plain(name.as_slice())], out)?;
    }
    add_count(names.len() as u64, b"snapshots", out)
}

/// Adds the lines of deleted places and their number.
fn add_deleted(places: &[Place], out: &mut Blob) -> Result<(), NoMemory>
    ensures ok { OnOk result (out.new ≡ out.old ++ (flat_map deleted_line places.now ++ count_line (length places.now) (codes "deleted"))) }
    ensures err { OnErr result (Begins out.old out.new) }
{
    for place in places {
        add_line(
            &[Piece::Plain(b"deleted "), Piece::Plain(place.as_slice())],
            out,
        )?;
    }
    add_count(places.len() as u64, b"deleted", out)
}

/// Adds the line of a refusal, and the lines of each other reply.
fn write_reply(out: &mut Blob, reply: &Reply) -> Result<(), NoMemory>
    ensures ok { OnOk result (out.new ≡ out.old ++ reply_text reply.now) }
    ensures err { OnErr result (Begins out.old out.new) }
{
    match reply {
        Reply::Fine => add_line(&[Piece::Plain(b"ok")], out),
        Reply::Cells(cells) => add_cells(cells.as_slice(), out),
        Reply::Snapshots(names) => add_snapshots(names.as_slice(), out),
        Reply::Deleted(places) => add_deleted(places.as_slice(), out),
        Reply::Removed(count) => add_count(*count as u64, b"regions removed", out),
        Reply::TableExists => add_refused(b"TableExists", out),
        Reply::TableNotFound => add_refused(b"TableNotFound", out),
        Reply::TableNotEnabled => add_refused(b"TableNotEnabled", out),
        Reply::TableNotDisabled => add_refused(b"TableNotDisabled", out),
        Reply::NameTaken => add_refused(b"NameTaken", out),
        Reply::DuplicateFamily(family) => {
            add_refused_with(b"DuplicateFamily", Piece::Plain(family.as_slice()), out)
        }
        Reply::UnknownFamily(family) => {
            add_refused_with(b"UnknownFamily", Piece::Plain(family.as_slice()), out)
        }
        Reply::BadSplitKey => add_refused(b"BadSplitKey", out),
        Reply::HasReferences => add_refused(b"HasReferences", out),
        Reply::TooManyRegions => add_refused(b"TooManyRegions", out),
        Reply::SnapshotExists => add_refused(b"SnapshotExists", out),
        Reply::SnapshotNotFound => add_refused(b"SnapshotNotFound", out),
        Reply::InUse(actor) => add_refused_with(b"InUse", Piece::Number(actor.0 as u64), out),
        Reply::Taking(name) => add_refused_with(b"Taking", Piece::Plain(name.as_slice()), out),
        Reply::EmptyGroup => add_refused(b"EmptyGroup", out),
        Reply::BadFile(file) => add_refused_with(b"BadFile", Piece::Shown(file.as_slice()), out),
        Reply::DuplicateKey(file) => {
            add_refused_with(b"DuplicateKey", Piece::Shown(file.as_slice()), out)
        }
        Reply::TooManyFiles(region, family) => {
            add_too_many(region.as_slice(), family.as_slice(), out)
        }
    }
}

/// Adds the line of the refusal that a region and family would have too many files.
fn add_too_many<'a>(region: &'a [u8], family: &'a [u8], out: &mut Blob) -> Result<(), NoMemory>
    ensures ok { OnOk result (out.new ≡ out.old ++ refused_with (codes "TooManyFiles") (region.now ++ codes " " ++ family.now)) }
    ensures err { OnErr result (out.new ≡ out.old) }
{
    add_line(
        &[
            Piece::Plain(b"refused TooManyFiles "),
            Piece::Plain(region),
            Piece::Plain(b" "),
            Piece::Plain(family),
        ],
        out,
    )
}

/// Adds the lines of a reply at the end of `out`. Without memory for them nothing changes.
pub fn print_reply(out: &mut Blob, reply: &Reply) -> Result<(), NoMemory>
    ensures ok { OnOk result (out.new ≡ out.old ++ reply_text reply.now) }
    ensures err { OnErr result (out.new ≡ out.old) }
{
    let before = out.len();
    match write_reply(out, reply) {
        Ok(()) => Ok(()),
        Err(want) => {
            out.truncate(before);
            Err(want)
        }
    }
}
