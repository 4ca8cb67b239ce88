//! Files of a family.
ghost use Rattle.std.specs.Prelude.{◌≡◌, ◌^◌, ◌+◌, ◌<◌, length, IfOk, IfErr};
ghost use Rattle.field_rules.specs.Values.{Inner};
ghost use Rattle.field_reader.specs.Faults.{Whole, Within};
ghost use Rattle.snapshot_records.specs.Files.{IsEntryName, half_made, file_made, IsFile, files_made, IsFamilyFiles};
ghost use Rattle.manifest_messages.specs.Faults.{IsFileFault, IsFamilyFilesFault};

use field_reader::{Last, Met, RecordError, Repeated, Rule, met_text, need, read_fields, told};
use field_rules::Unmade;
use hb_file_names::{FileName, LinkName, RefName};
use hb_names::FamilyName;
use hb_wire::{Blob, Items};
use snapshot_messages::{AnyNumber, FamilyText, ReferenceRule};
use snapshot_records::Reference;
use std::alloc::Global;

/// A file by its name, the half that it is, if it is one, and its size.
pub(crate) type File = (Blob, Option<Reference>, u64);

/// The files of a family.
pub(crate) type FamilyFiles = (FamilyName, Items<File>);

type FileFields = (
    Last<1, EntryText>,
    (Last<2, ReferenceRule>, Last<3, AnyNumber>),
);

type FilesFields = (Last<1, FamilyText>, Repeated<2, FileRule>);

/// The name of a file, a link or a half, and whether it is that of a half.
#[derive(Clone, Copy, Debug)]
pub struct EntryText;

impl Rule for EntryText {
    type Value = (Blob, bool);

    ghost spells = { Inner IsEntryName };

    ghost faults = { Whole (Inner IsEntryName) };

    fn read(alloc: Global, bytes: &[u8], met: &Met) -> Result<(Blob, bool), RecordError> {
        let name = met_text(bytes, met)?;
        let is_half = RefName::parse(name).is_ok();
        if !is_half && FileName::parse(name).is_err() && LinkName::parse(name).is_err() {
            return Err(RecordError::BadRecord(met.at));
        }
        Ok((Blob::copy_of(alloc, name)?, is_half))
    }
}

/// The reference of a half, which nothing else has.
fn half_made(is_half: bool, reference: Option<Reference>) -> Result<Option<Reference>, Unmade>
    ensures { result ≡ half_made is_half reference }
{
    match (is_half, reference) {
        (true, None) => Err(Unmade::Missing(2)),
        (true, Some(reference)) => Ok(Some(reference)),
        (false, None) => Ok(None),
        (false, Some(_reference)) => Err(Unmade::Needless(2)),
    }
}

/// A file by its fields.
fn file_made(
    name: Option<(Blob, bool)>,
    reference: Option<Reference>,
    size: Option<u64>,
) -> Result<File, Unmade>
    ensures { result ≡ file_made (name, (reference, size)) }
{
    let (name, is_half) = need(name, 1)?;
    let half = half_made(is_half, reference)?;
    Ok((name, half, size.unwrap_or(0)))
}

/// The file that a message is, which stands at a place.
fn read_file(alloc: Global, bytes: &[u8], place: u64) -> Result<File, RecordError>
    requires { place + length bytes.now < 2 ^ 64 }
    ensures found { IfOk result (IsFile bytes.now) }
    ensures fault { IfErr result (IsFileFault bytes.now place) }
{
    let (name, (reference, size)): FileFields = read_fields(alloc, bytes, place)?;
    let made = file_made(name.value, reference.value, size.value);
    told(made, bytes, place)
}

/// A file in a message.
#[derive(Clone, Copy, Debug)]
pub struct FileRule;

impl Rule for FileRule {
    type Value = File;

    ghost spells = { Inner IsFile };

    ghost faults = { Within IsFileFault };

    fn read(alloc: Global, bytes: &[u8], met: &Met) -> Result<File, RecordError> {
        let message = met_text(bytes, met)?;
        read_file(alloc, message, met.inside)
    }
}

/// The files of a family by their fields.
fn files_made(name: Option<FamilyName>, files: Items<File>) -> Result<FamilyFiles, Unmade>
    ensures { result ≡ files_made (name, files) }
{
    let name = need(name, 1)?;
    Ok((name, files))
}

/// The files of a family that a message is, which stands at a place.
fn read_files(alloc: Global, bytes: &[u8], place: u64) -> Result<FamilyFiles, RecordError>
    requires { place + length bytes.now < 2 ^ 64 }
    ensures found { IfOk result (IsFamilyFiles bytes.now) }
    ensures fault { IfErr result (IsFamilyFilesFault bytes.now place) }
{
    let (name, files): FilesFields = read_fields(alloc, bytes, place)?;
    let made = files_made(name.value, files.values);
    told(made, bytes, place)
}

/// The files of a family in a message.
#[derive(Clone, Copy, Debug)]
pub struct FilesRule;

impl Rule for FilesRule {
    type Value = FamilyFiles;

    ghost spells = { Inner IsFamilyFiles };

    ghost faults = { Within IsFamilyFilesFault };

    fn read(alloc: Global, bytes: &[u8], met: &Met) -> Result<FamilyFiles, RecordError> {
        let message = met_text(bytes, met)?;
        read_files(alloc, message, met.inside)
    }
}
