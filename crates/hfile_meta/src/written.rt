//! The trailer that is written.
ghost use Rattle.std.specs.Prelude.{◌≡◌, ◌≤◌, ◌++◌, ◌-◌, length, replicate, IfOk, OnOk, OnErr};
ghost use Rattle.hfile_meta.specs.Trailer.{delimited, trailer_bytes};
ghost use Rattle.hfile_meta.specs.Written.{written_message, written_trailer, first_bytes, other_bytes, comparator_bytes};

use crate::Trailer;
use hb_wire::{Blob, NoMemory};
use std::alloc::Global;
use wire_fields::{put_bytes_field, put_varint, put_varint_field};

/// The name of the order of cells. Source: HBase `CellComparatorImpl`.
const COMPARATOR: &[u8; 42] = b"org.apache.hadoop.hbase.CellComparatorImpl";
/// How many bytes of a trailer stand before its version.
const VERSION_AT: usize = 208;

/// Adds the fields 1 to 6 at the end.
#[tactic(auto, unfolding(crate::specs::Written::first_bytes))]
fn put_first(message: &mut Blob, trailer: &Trailer) -> Result<(), NoMemory>
    ensures { OnOk result (message.new ≡ message.old ++ first_bytes trailer.now) }
{
    put_varint_field(message, 1, trailer.info_at)?;
    put_varint_field(message, 2, trailer.load_at)?;
    put_varint_field(message, 3, trailer.index_bytes)?;
    put_varint_field(message, 4, trailer.total_bytes)?;
    put_varint_field(message, 5, trailer.data_count)?;
    put_varint_field(message, 6, trailer.meta_count)
}

/// Adds the field with the name of the order of cells.
#[tactic(auto, unfolding(crate::specs::Written::comparator_bytes))]
fn put_comparator(message: &mut Blob) -> Result<(), NoMemory>
    ensures { OnOk result (message.new ≡ message.old ++ comparator_bytes) }
{
    put_bytes_field(message, 11, COMPARATOR)
}

/// Adds the fields 7 to 12 at the end.
#[tactic(auto, unfolding(crate::specs::Written::other_bytes))]
fn put_others(message: &mut Blob, trailer: &Trailer) -> Result<(), NoMemory>
    ensures { OnOk result (message.new ≡ message.old ++ other_bytes trailer.now) }
{
    put_varint_field(message, 7, trailer.entries)?;
    put_varint_field(message, 8, trailer.levels)?;
    put_varint_field(message, 9, trailer.first)?;
    put_varint_field(message, 10, trailer.last)?;
    put_comparator(message)?;
    put_varint_field(message, 12, trailer.compression as u64)
}

/// The message of a trailer.
fn message_of(alloc: Global, trailer: &Trailer) -> Result<Blob, NoMemory>
    ensures short { IfOk result (λ message. length (delimited message) ≤ 200) }
    ensures exact { IfOk result (λ message. message ≡ written_message trailer.now) }
{
    let mut message = Blob::copy_of(alloc, &[])?;
    put_first(&mut message, trailer)?;
    put_others(&mut message, trailer)?;
    Ok(message)
}

/// Zeros to stand behind a message.
static ZEROS: [u8; 200] = [0; 200];

/// So many zeros.
fn zeros(len: usize) -> &'static [u8]
    requires { len ≤ 200 }
    ensures { result.now ≡ replicate len 0 }
{
    let (zeros, _) = ZEROS.split_at(len);
    zeros
}

/// The bytes of a trailer with a message.
fn framed(alloc: Global, message: &[u8]) -> Result<Blob, NoMemory>
    requires { length (delimited message.now) ≤ 200 }
    ensures { IfOk result (λ bytes. bytes ≡ trailer_bytes message.now (200 - length (delimited message.now)) 3) }
{
    let mut bytes = Blob::copy_of(alloc, crate::trailer::MAGIC)?;
    put_varint(&mut bytes, message.len() as u64)?;
    bytes.add(message)?;
    let len = VERSION_AT - bytes.len();
    bytes.add(zeros(len))?;
    bytes.add(&[3, 0, 0, 2])?;
    Ok(bytes)
}

/// Adds the 212 bytes of a trailer of version 2, minor number 3, at the end. Without memory for them nothing changes.
///
/// Source: HBase Reference Guide, HFile format, trailer; `FixedFileTrailer`.
#[tactic(auto, unfolding(crate::specs::Written::written_trailer))]
pub fn write_trailer(out: &mut Blob, trailer: &Trailer) -> Result<(), NoMemory>
    ensures ok { OnOk result (out.new ≡ out.old ++ written_trailer trailer.now) }
    ensures err { OnErr result (out.new ≡ out.old) }
{
    let message = message_of(out.allocator(), trailer)?;
    let bytes = framed(out.allocator(), message.as_slice())?;
    out.add(bytes.as_slice())
}
