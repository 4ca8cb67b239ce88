//! Files of regions, each with its family.
ghost use Rattle.std.specs.Prelude.{◌≡◌, ◌≤◌, ◌++◌, ◌↔◌, length, map, None, IsTrue, IfOk, OnOk, option_copied, is_some};
ghost use Rattle.std.specs.List.{flat_map};
ghost use Rattle.wire_fields.specs.Fields.{text, field_bytes};
ghost use Rattle.wire_fields.specs.Message.{message_bytes};
ghost use Rattle.hb_grammar.specs.AtLeast.{IsAtLeast};
ghost use Rattle.snapshot_records.specs.Files.{IsEntryName};
ghost use Rattle.manifest_writers.specs.Written.{half_part, file_bytes, family_files_bytes, file_of, by_family, run_length};
ghost use Rattle.manifest_writers.specs.Writable.{HasSplitRow, IsWritableFile, IsFileBehind, AreWritableFiles};

use hb_file_names::{FileName, LinkName, RefName};
use hb_names::FamilyName;
use hb_wire::{Blob, NoMemory};
use snapshot_records::Reference;
use snapshot_writers::{is_split_row, reference_message};
use std::alloc::Global;
use std::cmp::Ordering;
use wire_fields::{put_bytes_field, put_varint_field};

/// A file with its family.
pub type Entry = (FamilyName, Blob, Option<Reference>, u64);

/// Whether a name is that of a half, or else of a file or a link.
fn is_entry_name(name: &[u8], is_half: bool) -> bool
    ensures { IsTrue result ↔ IsEntryName name.now (name.now, is_half) }
{
    let names_half = RefName::parse(name).is_ok();
    if is_half {
        return names_half;
    }
    !names_half && (FileName::parse(name).is_ok() || LinkName::parse(name).is_ok())
}

/// Whether a file's name is that of a half where it is one, and else of a file or a link.
fn has_entry_name(entry: &Entry) -> bool
    ensures { IsTrue result ↔ IsEntryName entry.now.1 (entry.now.1, is_some entry.now.2) }
{
    is_entry_name(entry.1.as_slice(), entry.2.is_some())
}

/// Whether a half's file can have been split at its row.
fn has_split_row(half: &Option<Reference>) -> bool
    ensures { IsTrue result ↔ HasSplitRow half.now }
{
    match half {
        Some(reference) => is_split_row(reference.row.as_slice()),
        None => true,
    }
}

/// Whether a manifest can have a file: its name is that of a file or a link, or of a half where it is one.
pub fn is_writable_file(entry: &Entry) -> bool
    ensures { IsTrue result ↔ IsWritableFile entry.now }
{
    // The family's name and the size are right by their types.
    let _family = entry.0.as_slice();
    let _size = entry.3;
    has_split_row(&entry.2) && has_entry_name(entry)
}

/// Whether a name is not below another.
fn is_at_least(bound: &FamilyName, name: &FamilyName) -> bool
    ensures { IsTrue result ↔ IsAtLeast bound.now name.now }
{
    match bound.as_slice().cmp(name.as_slice()) {
        Ordering::Greater => false,
        _ => true,
    }
}

/// Whether a file may stand behind another.
fn is_behind(last: Option<&Entry>, entry: &Entry) -> bool
    ensures { IsTrue result ↔ IsFileBehind (option_copied last.entry) entry.now }
{
    match last {
        Some(last) => is_writable_file(entry) && is_at_least(&last.0, &entry.0),
        None => is_writable_file(entry),
    }
}

/// Whether a region of a manifest can have these files.
pub(crate) fn are_writable_files(files: &[Entry]) -> bool
    ensures { IsTrue result ↔ AreWritableFiles files.now }
{
    let mut last = None;
    let mut rest = files;
    while let [first, behind @ ..] = rest {
        if !is_behind(last, first) {
            return false;
        }
        last = Some(first);
        rest = behind;
    }
    true
}

/// Adds the reference of a half, where a file is one.
fn put_half(out: &mut Blob, half: &Option<Reference>) -> Result<(), NoMemory>
    ensures { OnOk result (out.new ≡ out.old ++ message_bytes (half_part half.now)) }
{
    match half {
        None => Ok(()),
        Some(reference) => {
            let message = reference_message(out.allocator(), reference)?;
            put_bytes_field(out, 2, message.as_slice())
        }
    }
}

/// The message of a file.
fn file_message(alloc: Global, entry: &Entry) -> Result<Blob, NoMemory>
    ensures { IfOk result (λ message. message ≡ file_bytes (file_of entry.now)) }
{
    let mut message = Blob::from_vec(Vec::new(alloc));
    put_bytes_field(&mut message, 1, entry.1.as_slice())?;
    put_half(&mut message, &entry.2)?;
    put_varint_field(&mut message, 3, entry.3)?;
    Ok(message)
}

/// Adds a field for each file.
fn put_files(out: &mut Blob, files: &[Entry]) -> Result<(), NoMemory>
    ensures { OnOk result (out.new ≡ out.old ++ flat_map (λ e. field_bytes 2 (text (file_bytes (file_of e)))) files.now) }
{
    for file in files {
        let message = file_message(out.allocator(), file)?;
        put_bytes_field(out, 2, message.as_slice())?;
    }
    Ok(())
}

/// The message of a family's files.
fn family_message(alloc: Global, family: &FamilyName, files: &[Entry]) -> Result<Blob, NoMemory>
    ensures { IfOk result (λ message. message ≡ family_files_bytes (family.now, map file_of files.now)) }
{
    let mut message = Blob::from_vec(Vec::new(alloc));
    put_bytes_field(&mut message, 1, family.as_slice())?;
    put_files(&mut message, files)?;
    Ok(message)
}

/// How many of the files at the front are of a family.
fn run_length(family: &FamilyName, files: &[Entry]) -> usize
    ensures length { result ≡ run_length family.now files.now }
    ensures within { result ≤ length files.now }
{
    let mut run = 0;
    for file in files {
        if file.0.as_slice() != family.as_slice() {
            return run;
        }
        run += 1;
    }
    run
}

/// Adds a field for each family of the files.
pub(crate) fn put_families(out: &mut Blob, files: &[Entry]) -> Result<(), NoMemory>
    ensures { OnOk result (out.new ≡ out.old ++ flat_map (λ f. field_bytes 3 (text (family_files_bytes f))) (by_family files.now)) }
{
    let mut rest = files;
    while let Some(first) = rest.first() {
        let (run, behind) = rest.split_at(run_length(&first.0, rest));
        let message = family_message(out.allocator(), &first.0, run)?;
        put_bytes_field(out, 3, message.as_slice())?;
        rest = behind;
    }
    Ok(())
}
