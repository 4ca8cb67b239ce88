//! References.
ghost use Rattle.std.specs.Prelude.{◌≡◌, ◌^◌, ◌+◌, ◌<◌, length, IfOk, IfErr};
ghost use Rattle.field_rules.specs.Values.{Inner};
ghost use Rattle.field_reader.specs.Faults.{Within};
ghost use Rattle.snapshot_records.specs.Reference.{IsReferenceMessage, IsReference, reference_made};
ghost use Rattle.snapshot_messages.specs.Faults.{IsReferenceMessageFault, IsReferenceFault};

use crate::rules::{Half, SplitRow};
use field_reader::{Last, Met, RecordError, Rule, met_text, need, read_fields, told};
use field_rules::Unmade;
use hb_wire::Blob;
use snapshot_records::Reference;
use std::alloc::Global;

type ReferenceFields = (Last<1, SplitRow>, Last<2, Half>);

/// What every file of a reference begins with.
const PREFIX: &[u8; 4] = b"PBUF";

/// The reference of a row and a half.
fn reference_made(row: Option<Blob>, top: Option<bool>) -> Result<Reference, Unmade>
    ensures { result ≡ reference_made (row, top) }
{
    let row = need(row, 1)?;
    let top = need(top, 2)?;
    Ok(Reference { row, top })
}

/// The reference that a message is, which stands at a place.
fn read_message(alloc: Global, bytes: &[u8], place: u64) -> Result<Reference, RecordError>
    requires { place + length bytes.now < 2 ^ 64 }
    ensures found { IfOk result (IsReferenceMessage bytes.now) }
    ensures fault { IfErr result (IsReferenceMessageFault bytes.now place) }
{
    let (row, top): ReferenceFields = read_fields(alloc, bytes, place)?;
    told(reference_made(row.value, top.value), bytes, place)
}

/// A reference in a message.
#[derive(Clone, Copy, Debug)]
pub struct ReferenceRule;

impl Rule for ReferenceRule {
    type Value = Reference;

    ghost spells = { Inner IsReferenceMessage };

    ghost faults = { Within IsReferenceMessageFault };

    fn read(alloc: Global, bytes: &[u8], met: &Met) -> Result<Reference, RecordError> {
        let message = met_text(bytes, met)?;
        read_message(alloc, message, met.inside)
    }
}

/// The reference that the bytes of a file are, or the place of their fault. Without its prefix it is 0.
///
/// Source: HBase `Reference`.
pub fn read_reference(alloc: Global, bytes: &[u8]) -> Result<Reference, RecordError>
    ensures found { IfOk result (IsReference bytes.now) }
    ensures fault { IfErr result (IsReferenceFault bytes.now) }
{
    match bytes.strip_prefix(PREFIX) {
        Some(message) => read_message(alloc, message, 4),
        None => Err(RecordError::BadRecord(0)),
    }
}
