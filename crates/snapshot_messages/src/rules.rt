//! Rules of values that are numbers, names and bytes.
ghost use Rattle.std.specs.Prelude.{◌≡◌, ◌≢◌, ℕ, List, IfOk, IfErr};
ghost use Rattle.field_rules.specs.Values.{Number, AnyNumber as IsAnyNumber, Text, AnyText as IsAnyText};
ghost use Rattle.field_reader.specs.Faults.{Whole};
ghost use Rattle.hb_names.specs.TableName.{IsTableName};
ghost use Rattle.hb_names.specs.SnapName.{IsSnapName};
ghost use Rattle.hb_names.specs.FamilyName.{IsFamilyName};
ghost use Rattle.snapshot_records.specs.Reference.{IsSplitRow, IsHalf};
ghost use Rattle.snapshot_records.specs.SnapshotInfo.{IsFlush};
ghost use Rattle.snapshot_records.specs.TableMessage.{IsDefault};
ghost use Rattle.snapshot_records.specs.RegionInfo.{IsBound};
ghost use Rattle.snapshot_records.specs.Manifest.{IsSeq};

use field_reader::{Met, RecordError, Rule, met_number, met_text};
use hb_names::{FamilyName, NameError, SnapName, TableName};
use hb_wire::Blob;
use std::alloc::Global;

/// A number.
#[derive(Clone, Copy, Debug)]
pub struct AnyNumber;

impl Rule for AnyNumber {
    type Value = u64;

    ghost spells = { IsAnyNumber };

    ghost faults = { Whole IsAnyNumber };

    fn read(_alloc: Global, bytes: &[u8], met: &Met) -> Result<u64, RecordError> {
        met_number(bytes, met)
    }
}

/// A sequence number.
#[derive(Clone, Copy, Debug)]
pub struct SeqNumber;

impl Rule for SeqNumber {
    type Value = u64;

    ghost spells = { Number IsSeq };

    ghost faults = { Whole (Number IsSeq) };

    fn read(_alloc: Global, bytes: &[u8], met: &Met) -> Result<u64, RecordError> {
        let number = met_number(bytes, met)?;
        if number > 9_223_372_036_854_775_807 {
            return Err(RecordError::BadRecord(met.at));
        }
        Ok(number)
    }
}

/// Which half of a file.
#[derive(Clone, Copy, Debug)]
pub struct Half;

impl Rule for Half {
    type Value = bool;

    ghost spells = { IsHalf };

    ghost faults = { Whole IsHalf };

    fn read(_alloc: Global, bytes: &[u8], met: &Met) -> Result<bool, RecordError> {
        match met_number(bytes, met)? {
            0 => Ok(true),
            1 => Ok(false),
            _ => Err(RecordError::BadRecord(met.at)),
        }
    }
}

/// How a snapshot was made.
#[derive(Clone, Copy, Debug)]
pub struct Flush;

impl Rule for Flush {
    type Value = bool;

    ghost spells = { IsFlush };

    ghost faults = { Whole IsFlush };

    fn read(_alloc: Global, bytes: &[u8], met: &Met) -> Result<bool, RecordError> {
        match met_number(bytes, met)? {
            0 => Ok(false),
            1 => Ok(true),
            _ => Err(RecordError::BadRecord(met.at)),
        }
    }
}

/// Bytes.
#[derive(Clone, Copy, Debug)]
pub struct AnyText;

impl Rule for AnyText {
    type Value = Blob;

    ghost spells = { IsAnyText };

    ghost faults = { Whole IsAnyText };

    fn read(alloc: Global, bytes: &[u8], met: &Met) -> Result<Blob, RecordError> {
        let text = met_text(bytes, met)?;
        Ok(Blob::copy_of(alloc, text)?)
    }
}

/// A row at which a file can be split.
#[derive(Clone, Copy, Debug)]
pub struct SplitRow;

impl Rule for SplitRow {
    type Value = Blob;

    ghost spells = { Text IsSplitRow };

    ghost faults = { Whole (Text IsSplitRow) };

    fn read(alloc: Global, bytes: &[u8], met: &Met) -> Result<Blob, RecordError> {
        let row = met_text(bytes, met)?;
        if row.is_empty() || row.len() > 32767 {
            return Err(RecordError::BadRecord(met.at));
        }
        Ok(Blob::copy_of(alloc, row)?)
    }
}

/// A row that bounds a region, or no bytes.
#[derive(Clone, Copy, Debug)]
pub struct Bound;

impl Rule for Bound {
    type Value = Blob;

    ghost spells = { Text IsBound };

    ghost faults = { Whole (Text IsBound) };

    fn read(alloc: Global, bytes: &[u8], met: &Met) -> Result<Blob, RecordError> {
        let row = met_text(bytes, met)?;
        if row.len() > 32767 {
            return Err(RecordError::BadRecord(met.at));
        }
        Ok(Blob::copy_of(alloc, row)?)
    }
}

/// The namespace of every table.
#[derive(Clone, Copy, Debug)]
pub struct DefaultText;

impl Rule for DefaultText {
    type Value = Blob;

    ghost spells = { Text IsDefault };

    ghost faults = { Whole (Text IsDefault) };

    fn read(alloc: Global, bytes: &[u8], met: &Met) -> Result<Blob, RecordError> {
        let name = met_text(bytes, met)?;
        if name != b"default".as_slice() {
            return Err(RecordError::BadRecord(met.at));
        }
        Ok(Blob::copy_of(alloc, name)?)
    }
}

/// The name of a table.
#[derive(Clone, Copy, Debug)]
pub struct TableText;

impl Rule for TableText {
    type Value = TableName;

    ghost spells = { Text IsTableName };

    ghost faults = { Whole (Text IsTableName) };

    fn read(alloc: Global, bytes: &[u8], met: &Met) -> Result<TableName, RecordError> {
        let name = met_text(bytes, met)?;
        match TableName::parse(name) {
            Ok(name) => Ok(TableName::copy_of(alloc, name)?),
            Err(_bad) => Err(RecordError::BadRecord(met.at)),
        }
    }
}

/// The name of a snapshot.
#[derive(Clone, Copy, Debug)]
pub struct SnapText;

impl Rule for SnapText {
    type Value = SnapName;

    ghost spells = { Text IsSnapName };

    ghost faults = { Whole (Text IsSnapName) };

    fn read(alloc: Global, bytes: &[u8], met: &Met) -> Result<SnapName, RecordError> {
        let name = met_text(bytes, met)?;
        match SnapName::read(alloc, name) {
            Ok(name) => Ok(name),
            Err(NameError::Bad(_bad)) => Err(RecordError::BadRecord(met.at)),
            Err(NameError::NoMemory) => Err(RecordError::NoMemory),
        }
    }
}

/// The name of a column family.
#[derive(Clone, Copy, Debug)]
pub struct FamilyText;

impl Rule for FamilyText {
    type Value = FamilyName;

    ghost spells = { Text IsFamilyName };

    ghost faults = { Whole (Text IsFamilyName) };

    fn read(alloc: Global, bytes: &[u8], met: &Met) -> Result<FamilyName, RecordError> {
        let name = met_text(bytes, met)?;
        match FamilyName::parse(name) {
            Ok(name) => Ok(FamilyName::copy_of(alloc, name)?),
            Err(_bad) => Err(RecordError::BadRecord(met.at)),
        }
    }
}
