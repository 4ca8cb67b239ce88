//! Regions in a snapshot.
ghost use Rattle.std.specs.Prelude.{◌≡◌, ◌^◌, ◌+◌, ◌<◌, ◌++◌, map, length, OnOk, IfOk, IfErr};
ghost use Rattle.field_rules.specs.Values.{Inner};
ghost use Rattle.field_reader.specs.Faults.{Within};
ghost use Rattle.snapshot_records.specs.Files.{entries};
ghost use Rattle.snapshot_records.specs.Manifest.{IsRegionManifest};
ghost use Rattle.manifest_messages.specs.Parts.{region_made, with_family};
ghost use Rattle.manifest_messages.specs.Faults.{IsRegionManifestFault};

use crate::families::Families;
use crate::file::{FamilyFiles, File};
use field_reader::{Last, Met, RecordError, Rule, met_text, need, read_fields, told};
use field_rules::Unmade;
use hb_names::FamilyName;
use hb_records::RegionInfo;
use hb_wire::{Blob, Copied, Items, NoMemory};
use snapshot_messages::{AnyNumber, RegionRule, SeqNumber};
use snapshot_records::{Reference, RegionManifest};
use std::alloc::Global;

type RegionFields = (
    Last<1, AnyNumber>,
    (Last<2, RegionRule>, (Families, Last<100, SeqNumber>)),
);

/// A file with its family.
type Entry = (FamilyName, Blob, Option<Reference>, u64);

/// Adds the files of a family, each with the family.
fn add_entries(
    entries: &mut Vec<Entry>,
    family: &FamilyName,
    files: Items<File>,
) -> Result<(), NoMemory>
    ensures { OnOk result (entries.new.items ≡ entries.old.items ++ map (with_family family.now) files) }
{
    let mut rest = files.into_vec().into_iter();
    while let Some((name, half, size)) = rest.next() {
        entries.push((family.copy()?, name, half, size))?;
    }
    Ok(())
}

/// Each file with its family.
fn entries(alloc: Global, families: Items<FamilyFiles>) -> Result<Items<Entry>, NoMemory>
    ensures { IfOk result (λ all. all ≡ entries families) }
{
    let mut all = Vec::new(alloc);
    let mut rest = families.into_vec().into_iter();
    while let Some((family, files)) = rest.next() {
        add_entries(&mut all, &family, files)?;
    }
    Ok(Items::from_vec(all))
}

/// A region by its fields.
fn region_made(
    info: Option<RegionInfo>,
    files: Items<Entry>,
    seq: Option<u64>,
) -> Result<RegionManifest, Unmade>
    ensures { result ≡ region_made info files seq }
{
    let info = need(info, 2)?;
    let seq = need(seq, 100)?;
    Ok(RegionManifest { info, seq, files })
}

/// The region that a message is, which stands at a place.
fn read_message(alloc: Global, bytes: &[u8], place: u64) -> Result<RegionManifest, RecordError>
    requires { place + length bytes.now < 2 ^ 64 }
    ensures found { IfOk result (IsRegionManifest bytes.now) }
    ensures fault { IfErr result (IsRegionManifestFault bytes.now place) }
{
    let (_version, (info, (families, seq))): RegionFields = read_fields(alloc, bytes, place)?;
    let files = entries(alloc, families.values)?;
    let made = region_made(info.value, files, seq.value);
    told(made, bytes, place)
}

/// A region in a message.
#[derive(Clone, Copy, Debug)]
pub struct RegionManifestRule;

impl Rule for RegionManifestRule {
    type Value = RegionManifest;

    ghost spells = { Inner IsRegionManifest };

    ghost faults = { Within IsRegionManifestFault };

    fn read(alloc: Global, bytes: &[u8], met: &Met) -> Result<RegionManifest, RecordError> {
        let message = met_text(bytes, met)?;
        read_message(alloc, message, met.inside)
    }
}

/// The region of a snapshot that the bytes are, or the place of their fault.
///
/// Source: HBase `SnapshotRegionManifest`.
pub fn read_region_manifest(alloc: Global, bytes: &[u8]) -> Result<RegionManifest, RecordError>
    ensures found { IfOk result (IsRegionManifest bytes.now) }
    ensures fault { IfErr result (IsRegionManifestFault bytes.now 0) }
{
    read_message(alloc, bytes, 0)
}
