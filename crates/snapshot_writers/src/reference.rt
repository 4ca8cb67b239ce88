//! References.
ghost use Rattle.std.specs.Prelude.{◌≡◌, ◌++◌, ◌↔◌, IsTrue, IfOk, OnOk, OnErr};
ghost use Rattle.snapshot_records.specs.Reference.{IsSplitRow, half_code, IsReference};
ghost use Rattle.snapshot_writers.specs.Written.{reference_message, reference_bytes};

use hb_wire::{Blob, NoMemory};
use snapshot_records::Reference;
use std::alloc::Global;
use wire_fields::{put_bytes_field, put_varint_field};

/// Whether a file can be split at a row: whether a reference can be written that has it.
pub fn is_split_row(row: &[u8]) -> bool
    ensures { IsTrue result ↔ IsSplitRow row.now }
{
    !row.is_empty() && row.len() <= 32767
}

/// The code of a half.
fn half_code(top: bool) -> u64
    ensures { result ≡ half_code top }
{
    if top { 0 } else { 1 }
}

/// The message of a reference, without the prefix, as it stands in a manifest.
pub fn reference_message(alloc: Global, reference: &Reference) -> Result<Blob, NoMemory>
    ensures { IfOk result (λ message. message ≡ reference_message reference.now) }
{
    let mut message = Blob::from_vec(Vec::new(alloc));
    put_bytes_field(&mut message, 1, reference.row.as_slice())?;
    put_varint_field(&mut message, 2, half_code(reference.top))?;
    Ok(message)
}

/// The record of a reference.
fn reference_bytes(alloc: Global, reference: &Reference) -> Result<Blob, NoMemory>
    ensures { IfOk result (λ written. written ≡ reference_bytes reference.now) }
{
    let message = reference_message(alloc, reference)?;
    let mut record = Blob::copy_of(alloc, b"PBUF")?;
    record.add(message.as_slice())?;
    Ok(record)
}

/// Adds the record of a reference at the end. Without memory for it nothing changes.
///
/// Source: HBase `Reference`.
pub fn write_reference(reference: &Reference, out: &mut Blob) -> Result<(), NoMemory>
    requires { IsSplitRow reference.now.row }
    ensures ok { OnOk result (out.new ≡ out.old ++ reference_bytes reference.now) }
    ensures record { IsReference (reference_bytes reference.now) reference.now }
    ensures err { OnErr result (out.new ≡ out.old) }
{
    let record = reference_bytes(out.allocator(), reference)?;
    out.add(record.as_slice())
}
