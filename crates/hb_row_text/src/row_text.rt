//! Row keys read from their text, and written as it.

ghost use Rattle.std.specs.Prelude.{◌≡◌, ◌≤◌, ◌++◌, length, IfOk, OnOk, OnErr};
ghost use Rattle.hex.specs.Hex.{IsBytes};
ghost use Rattle.hb_row_text.specs.RowText.{row_text, IsRowText};

use hb_wire::{Blob, NoMemory};
use std::alloc::{AllocError, Global};

/// The greatest length of a row key.
pub const MAX_ROW: usize = 32_767;

/// The row key of a text. It fails for want of memory alone.
pub fn read_row(alloc: Global, text: &[u8]) -> Result<Blob, NoMemory>
    requires { IsRowText text.now }
    ensures text { IfOk result (λ row. row_text row ≡ text.now) }
    ensures small { IfOk result (λ row. IsBytes row) }
    ensures limit { IfOk result (λ row. length row ≤ MAX_ROW) }
{
    if text.len() == 1 {
        return Ok(Blob::from_vec(Vec::new(alloc)));
    }
    match hex::decode(alloc, text) {
        Ok(bytes) => Ok(Blob::from_vec(bytes)),
        Err(_) => Err(AllocError),
    }
}

/// Adds the text of a row key at the end of `out`. Without memory for it nothing changes.
pub fn write_row(row: &[u8], out: &mut Blob) -> Result<(), NoMemory>
    ensures ok { OnOk result (out.new ≡ out.old ++ row_text row.now) }
    ensures err { OnErr result (out.new ≡ out.old) }
{
    if row.is_empty() {
        return out.add(b"-");
    }
    let text = hex::encode(out.allocator(), row)?;
    out.add(text.as_bytes())
}
