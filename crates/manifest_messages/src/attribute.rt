//! Attributes of families, of which VERSIONS alone is read.
ghost use Rattle.std.specs.Prelude.{◌≡◌, ◌↔◌, ◌^◌, ◌+◌, ◌<◌, [], codes, length, unwrap_or, IsTrue, IfOk, IfErr};
ghost use Rattle.field_rules.specs.Values.{Inner};
ghost use Rattle.snapshot_records.specs.Schema.{TellsVersions, attribute_made, IsAttribute};
ghost use Rattle.manifest_messages.specs.Faults.{IsPair, IsPairFault, IsAttributeFault, TellsNone};

use field_reader::{Last, Met, RecordError, Rule, met_text, need, read_fields, told};
use field_rules::Unmade;
use hb_grammar::number::number_of;
use hb_grammar::{Between, scan};
use hb_wire::Blob;
use snapshot_messages::AnyText;
use snapshot_records::MAX_VERSIONS;
use std::alloc::Global;

type PairFields = (Last<1, AnyText>, Last<2, AnyText>);

/// The attribute whose value says how many versions of a cell a read shows.
const VERSIONS: &[u8; 8] = b"VERSIONS";

/// An attribute's value is no number of versions.
#[derive(Clone, Copy, Debug, PartialEq, Eq)]
pub(crate) struct BadVersions;

/// A value, which is no bytes where it is absent.
fn value_of(alloc: Global, value: Option<Blob>) -> Blob
    ensures { result ≡ unwrap_or value [] }
{
    match value {
        Some(value) => value,
        None => Blob::from_vec(Vec::new(alloc)),
    }
}

/// The name and the value of an attribute by its fields.
fn pair_made(alloc: Global, name: Option<Blob>, value: Option<Blob>) -> Result<(Blob, Blob), Unmade>
    ensures { result ≡ attribute_made (name, value) }
{
    let name = need(name, 1)?;
    Ok((name, value_of(alloc, value)))
}

/// The name and the value of the attribute that a message is, which stands at a place.
fn read_pair(alloc: Global, bytes: &[u8], place: u64) -> Result<(Blob, Blob), RecordError>
    requires { place + length bytes.now < 2 ^ 64 }
    ensures found { IfOk result (IsPair bytes.now) }
    ensures fault { IfErr result (IsPairFault bytes.now place) }
{
    let (name, value): PairFields = read_fields(alloc, bytes, place)?;
    let made = pair_made(alloc, name.value, value.value);
    told(made, bytes, place)
}

/// Whether an attribute's name is VERSIONS.
fn is_versions(name: &Blob) -> bool
    ensures { IsTrue result ↔ (name.now ≡ codes "VERSIONS") }
{
    name.as_slice() == VERSIONS.as_slice()
}

/// How many versions an attribute tells, where it is of that name.
pub(crate) fn versions_of(attribute: &(Blob, Blob)) -> Result<Option<u32>, BadVersions>
    ensures told { IfOk result (TellsVersions attribute.now) }
    ensures none { IfErr result (λ _. TellsNone attribute.now) }
{
    if !is_versions(&attribute.0) {
        return Ok(None);
    }
    let value = attribute.1.as_slice();
    match scan(Between::new(1, MAX_VERSIONS as u64), value) {
        Ok(()) => Ok(Some(number_of(value) as u32)),
        Err(_bad) => Err(BadVersions),
    }
}

/// An attribute in a message: the count of versions that it tells.
#[derive(Clone, Copy, Debug)]
pub struct AttributeRule;

impl Rule for AttributeRule {
    type Value = Option<u32>;

    ghost spells = { Inner IsAttribute };

    ghost faults = { IsAttributeFault };

    fn read(alloc: Global, bytes: &[u8], met: &Met) -> Result<Option<u32>, RecordError> {
        let message = met_text(bytes, met)?;
        let attribute = read_pair(alloc, message, met.inside)?;
        match versions_of(&attribute) {
            Ok(versions) => Ok(versions),
            Err(BadVersions) => Err(RecordError::BadRecord(met.at)),
        }
    }
}
