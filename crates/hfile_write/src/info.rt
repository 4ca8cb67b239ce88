//! The file info that is written.
ghost use Rattle.std.specs.Prelude.{◌≡◌, ◌≤◌, ◌*◌, ◌++◌, ◌∷◌, [], IfOk, OnOk, codes};
ghost use Rattle.hb_wire.specs.Fixed.{be_bytes};
ghost use Rattle.hb_cell.specs.Limits.{IsCell};
ghost use Rattle.hb_cell.specs.Stored.{key};
ghost use Rattle.hfile_meta.specs.Written.{written_info};
ghost use Rattle.hfile_index.specs.Short.{IsSmall};
ghost use Rattle.hfile_write.specs.Summary.{IsLow, IsLast, last_key, pairs_with};

use crate::ended::key_in;
use crate::summary::{Summary, average};
use hb_cell::{Cell, encode_cell};
use hb_wire::{Blob, Items, NoMemory, put_u32, put_u64};
use hfile_meta::{Info, write_info};
use std::alloc::Global;

/// A number of four bytes.
fn four_bytes(alloc: Global, number: u32) -> Result<Blob, NoMemory>
    ensures { IfOk result (λ bytes. bytes ≡ be_bytes 4 number) }
{
    let mut bytes = Blob::from_vec(Vec::new(alloc));
    put_u32(&mut bytes, number)?;
    Ok(bytes)
}

/// A number of eight bytes.
fn eight_bytes(alloc: Global, number: u64) -> Result<Blob, NoMemory>
    ensures { IfOk result (λ bytes. bytes ≡ be_bytes 8 number) }
{
    let mut bytes = Blob::from_vec(Vec::new(alloc));
    put_u64(&mut bytes, number)?;
    Ok(bytes)
}

/// A cell's key.
fn key_of(alloc: Global, cell: &Cell) -> Result<Blob, NoMemory>
    requires { IsCell cell.now }
    ensures { IfOk result (λ bytes. bytes ≡ key cell.now) }
{
    let mut stored = Blob::from_vec(Vec::new(alloc));
    encode_cell(&mut stored, cell, false)?;
    Blob::copy_of(alloc, key_in(stored.as_slice()))
}

/// Adds a pair.
fn push_pair(pairs: &mut Vec<(Blob, Blob)>, name: &[u8], value: Blob) -> Result<(), NoMemory>
    ensures { OnOk result (pairs.new.items ≡ pairs.old.items ++ (name.now, value) ∷ []) }
{
    let key = Blob::copy_of(*pairs.allocator(), name)?;
    pairs.push((key, value))?;
    Ok(())
}

/// The pairs, in the order of their keys.
fn pairs_with(
    alloc: Global,
    summary: &Summary,
    last: &Option<Cell>,
) -> Result<Items<(Blob, Blob)>, NoMemory>
    requires low { IsLow summary.now }
    requires last { IsLast last.now }
    ensures { IfOk result (λ pairs. pairs ≡ pairs_with summary.now last.now) }
{
    let mut pairs = Vec::with_capacity(alloc, 5)?;
    push_pair(&mut pairs, b"KEY_VALUE_VERSION", four_bytes(alloc, 1)?)?;
    push_pair(
        &mut pairs,
        b"MAX_MEMSTORE_TS_KEY",
        eight_bytes(alloc, summary.greatest)?,
    )?;
    let keys = average(summary.key_bytes, summary.cells) as u32;
    push_pair(&mut pairs, b"hfile.AVG_KEY_LEN", four_bytes(alloc, keys)?)?;
    let values = average(summary.value_bytes, summary.cells) as u32;
    push_pair(
        &mut pairs,
        b"hfile.AVG_VALUE_LEN",
        four_bytes(alloc, values)?,
    )?;
    if let Some(last) = last {
        push_pair(&mut pairs, b"hfile.LASTKEY", key_of(alloc, last)?)?;
    }
    Ok(Items::from_vec(pairs))
}

/// The content of the file info.
pub fn info_content(alloc: Global, summary: &Summary, last: &Option<Cell>) -> Result<Blob, NoMemory>
    requires low { IsLow summary.now }
    requires last { IsLast last.now }
    ensures exact { IfOk result (λ content. content ≡ written_info (pairs_with summary.now last.now)) }
    ensures small { IfOk result (λ content. IsSmall content) }
{
    let info = Info {
        pairs: pairs_with(alloc, summary, last)?,
    };
    let mut content = Blob::from_vec(Vec::new(alloc));
    write_info(&mut content, &info)?;
    Ok(content)
}
