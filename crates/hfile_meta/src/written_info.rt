//! The file info that is written.
ghost use Rattle.std.specs.Prelude.{◌≡◌, ◌<◌, ◌^◌, ◌++◌, length, IfOk, OnOk, OnErr};
ghost use Rattle.hfile_meta.specs.Info.{IsInfo};
ghost use Rattle.hfile_meta.specs.Written.{pair_bytes, pair_fields, written_info};

use crate::Info;
use hb_wire::{Blob, NoMemory};
use std::alloc::Global;
use wire_fields::{put_bytes_field, put_varint};

/// A pair as a message.
#[tactic(auto, unfolding(crate::specs::Written::pair_bytes))]
fn pair_message(alloc: Global, pair: &(Blob, Blob)) -> Result<Blob, NoMemory>
    ensures { IfOk result (λ message. message ≡ pair_bytes pair.now) }
{
    let mut message = Blob::from_vec(Vec::new(alloc));
    put_bytes_field(&mut message, 1, pair.0.as_slice())?;
    put_bytes_field(&mut message, 2, pair.1.as_slice())?;
    Ok(message)
}

/// Adds a field for each pair.
fn put_pairs(message: &mut Blob, pairs: &[(Blob, Blob)]) -> Result<(), NoMemory>
    ensures { OnOk result (message.new ≡ message.old ++ pair_fields pairs.now) }
{
    for pair in pairs {
        let bytes = pair_message(message.allocator(), pair)?;
        put_bytes_field(message, 1, bytes.as_slice())?;
    }
    Ok(())
}

/// The content with these pairs.
#[tactic(auto, unfolding(crate::specs::Written::written_info))]
fn content_of(alloc: Global, info: &Info) -> Result<Blob, NoMemory>
    ensures exact { IfOk result (λ content. content ≡ written_info info.now.pairs) }
    ensures small { IfOk result (λ content. length (pair_fields info.now.pairs) < 2 ^ 64) }
{
    let mut message = Blob::from_vec(Vec::new(alloc));
    put_pairs(&mut message, info.pairs.as_slice())?;
    let mut content = Blob::copy_of(alloc, b"PBUF")?;
    put_varint(&mut content, message.len() as u64)?;
    content.add(message.as_slice())?;
    Ok(content)
}

/// Adds the content of a file info with these pairs, in their order, at the end. Without memory for it nothing changes.
///
/// Source: HBase Reference Guide, HFile format, file info; `HFileInfo`.
pub fn write_info(out: &mut Blob, info: &Info) -> Result<(), NoMemory>
    ensures ok { OnOk result (out.new ≡ out.old ++ written_info info.now.pairs) }
    ensures info { OnOk result (IsInfo (written_info info.now.pairs) info.now.pairs) }
    ensures err { OnErr result (out.new ≡ out.old) }
{
    let content = content_of(out.allocator(), info)?;
    out.add(content.as_slice())
}
